//! The file of a client.

ghost use Rattle.std.specs.Prelude.{◌≡◌, ◌++◌, ◌||◌, [], ◌∷◌, true, false, codes, IfOk, OnOk, map, length, option_map, nat_lt};
ghost use Rattle.scr_tree.specs.Local.{tree_of};
ghost use Rattle.scr_tree.specs.Tree.{other};
ghost use Rattle.scr_tree.specs.View.{statements, part_of};
ghost use Rattle.jv_tree.specs.View.{stmt_of, method_of};
ghost use Rattle.stm_api.specs.View.{written_of};
ghost use Rattle.stm_client.specs.Counting.{behind};
ghost use Rattle.stm_client.specs.Client.{counters, plays, new_role, new_counter, static_method, part_method, part_methods, part_params};
ghost use Rattle.stm_client.specs.Client.{counter_param, methods, client_of, client_file};
ghost use Rattle.stm_client.specs.View.{making};

use crate::body::play;
use crate::exprs::{ROLE, counter, joined, number, part_name};
use crate::points::{About, Numbers};
use crate::stmts::{add, add_part_call};
use crate::survey::survey_of;
use jv_print::print_file;
use jv_tree::{Class, Decl, Expr, ExprKind, File, MethodDecl, Param, Stmt, StmtKind};
use mg_text::{List, Memory, Place, Text};
use scr_tree::{Local, Part, Statement};
use std::alloc::Global;
use stm_api::ApiFile;
use ts_tree::TypeName;

// As many branches of own choices may stand one inside another: a file of Java is at most as deep.
const MOST_LEVELS: u32 = 200;

/// The file `RMain.java` of the role R of a protocol: a class whose `main` plays the whole protocol,
/// or for a file of several, a method for each. There is none where more than 200 branches of own
/// choices stand one inside another.
///
/// # Errors
/// `Memory` only.
pub fn client(alloc: Global, local: &Local) -> Result<Option<ApiFile>, Memory>
    ensures { IfOk result (λ f. option_map written_of f ≡ client_of (tree_of local.now)) }
{
    let survey = survey_of(local)?;
    if survey.levels > MOST_LEVELS {
        return Ok(None);
    }
    let counters = counters(alloc, survey.own)?;
    let about = About {
        local,
        place: Place::start(local.file()),
        counters: counters.as_slice(),
    };
    let file = file_of(alloc, &about, is_several(local, survey.goes_on))?;
    Ok(Some(file))
}

// Whether each protocol of a file has a method: there are several, or one that goes on by `do`.
fn is_several(local: &Local, goes_on: bool) -> bool
    ensures { result ≡ (nat_lt 0 (length (tree_of local.now).others) || goes_on) }
{
    !local.others().as_slice().is_empty() || goes_on
}

// The names of the counters of the first own choices, so many.
fn counters(alloc: Global, count: u32) -> Result<List<Text>, Memory>
    ensures { IfOk result (λ ts. ts.items ≡ counters count) }
{
    let mut names = List::new(alloc);
    for number in 0..count {
        let name = counter(alloc, number + 1)?;
        names.push(name)?;
    }
    Ok(names)
}

// The file of the class.
fn file_of(alloc: Global, about: &About<'_>, is_several: bool) -> Result<ApiFile, Memory>
    ensures { IfOk result (λ f. written_of f ≡ client_file (making about.now) (tree_of about.now.local.now) is_several) }
{
    let methods = methods_of(alloc, about, is_several)?;
    let me = about.local.me();
    let name = joined(alloc, me.as_str(), "Main.java")?;
    let class = Class {
        place: about.place,
        name: joined(alloc, me.as_str(), "Main")?,
        typestate: None,
        fields: List::new(alloc),
        methods,
    };
    let mut decls = List::new(alloc);
    decls.push(Decl::Class(class))?;
    let tree = File { decls };
    let text = print_file(alloc, &tree)?;
    Ok(ApiFile { name, tree, text })
}

// The methods of the class.
fn methods_of(
    alloc: Global,
    about: &About<'_>,
    is_several: bool,
) -> Result<List<MethodDecl>, Memory>
    ensures { IfOk result (λ ms. map method_of ms.items ≡ methods (making about.now) (tree_of about.now.local.now) is_several) }
{
    if is_several {
        methods_of_several(alloc, about)
    } else {
        method_of_one(alloc, about)
    }
}

// The method `main` that plays the one protocol of a file.
fn method_of_one(alloc: Global, about: &About<'_>) -> Result<List<MethodDecl>, Memory>
    ensures { IfOk result (λ ms. map method_of ms.items ≡ methods (making about.now) (tree_of about.now.local.now) false) }
{
    let mut body = declarations(alloc, about)?;
    play(
        alloc,
        about,
        &[],
        START,
        about.local.body().as_slice(),
        &mut body,
    )?;
    let mut methods = List::new(alloc);
    methods.push(main_with(alloc, about.place, body)?)?;
    Ok(methods)
}

// Where a file begins.
const START: Numbers = Numbers { there: 1, own: 1 };

// The method `main` that plays the first protocol of a file, and the methods of all of them.
fn methods_of_several(alloc: Global, about: &About<'_>) -> Result<List<MethodDecl>, Memory>
    ensures { IfOk result (λ ms. map method_of ms.items ≡ methods (making about.now) (tree_of about.now.local.now) true) }
{
    let local = about.local;
    let mut body = declarations(alloc, about)?;
    add_part_call(alloc, about, local.name(), &mut body)?;
    let mut methods = List::new(alloc);
    methods.push(main_with(alloc, about.place, body)?)?;
    let behind = add_part(
        alloc,
        about,
        START,
        local.name(),
        local.body().as_slice(),
        &mut methods,
    )?;
    add_parts(
        alloc,
        about,
        behind,
        local.others().as_slice(),
        &mut methods,
    )?;
    Ok(methods)
}

// Appends the methods of protocols, from these numbers on.
#[tactic(auto, using(crate::proofs::Playing::part_steps))]
fn add_parts(
    alloc: Global,
    about: &About<'_>,
    at: Numbers,
    parts: &[Part],
    methods: &mut List<MethodDecl>,
) -> Result<(), Memory>
    ensures { OnOk result (map method_of methods.new.items ≡ map method_of methods.old.items
        ++ part_methods (making about.now) at (map other (map part_of parts.now))) }
{
    let mut at = at;
    for part in parts {
        at = add_part(alloc, about, at, &part.name, part.body.as_slice(), methods)?;
    }
    Ok(())
}

// Appends the method of a protocol. The answer is the numbers behind it.
fn add_part(
    alloc: Global,
    about: &About<'_>,
    at: Numbers,
    name: &Text,
    body: &[Statement],
    methods: &mut List<MethodDecl>,
) -> Result<Numbers, Memory>
    ensures behind { IfOk result (λ n. n ≡ behind (making about.now).me at (statements body.now)) }
    ensures method { OnOk result (map method_of methods.new.items ≡ map method_of methods.old.items
        ++ part_method (making about.now) name.now (plays (making about.now) [] at (statements body.now)) ∷ []) }
{
    let mut statements = List::new(alloc);
    let end = play(alloc, about, &[], at, body, &mut statements)?;
    let name = part_name(alloc, name)?;
    let params = part_params(alloc, about)?;
    let method = static_method(about.place, name, false, params, statements);
    methods.push(method)?;
    Ok(end.numbers)
}

// A static method that answers nothing.
fn static_method(
    place: Place,
    name: Text,
    takes_args: bool,
    params: List<Param>,
    body: List<Stmt>,
) -> MethodDecl
    ensures { method_of result ≡ static_method place name takes_args params.items (map stmt_of body.items) }
{
    MethodDecl {
        place,
        end: place,
        is_static: true,
        result: TypeName::Void,
        name,
        params,
        takes_args,
        body,
    }
}

// The method `main` of these statements.
fn main_with(alloc: Global, place: Place, body: List<Stmt>) -> Result<MethodDecl, Memory>
    ensures { IfOk result (λ m. method_of m ≡ static_method place (codes "main") true [] (map stmt_of body.items)) }
{
    let name = Text::of(alloc, "main")?;
    Ok(static_method(place, name, true, List::new(alloc), body))
}

// What `main` declares: the role's object, and the counters.
fn declarations(alloc: Global, about: &About<'_>) -> Result<List<Stmt>, Memory>
    ensures { IfOk result (λ ss. map stmt_of ss.items ≡ new_role (making about.now)
        ∷ map (new_counter about.now.place) about.now.counters.now) }
{
    let mut body = List::new(alloc);
    add_role(alloc, about, &mut body)?;
    add_counters(alloc, about.place, about.counters, &mut body)?;
    Ok(body)
}

// Appends the declaration of the role's object.
#[tactic(auto, using(crate::proofs::Trees::views))]
fn add_role(alloc: Global, about: &About<'_>, body: &mut List<Stmt>) -> Result<(), Memory>
    ensures { OnOk result (map stmt_of body.new.items ≡ map stmt_of body.old.items ++ new_role (making about.now) ∷ []) }
{
    let class = joined(alloc, about.local.me().as_str(), "Role")?;
    let ty = TypeName::Named(class.copy()?);
    let name = Text::of(alloc, ROLE)?;
    let place = about.place;
    let kind = ExprKind::New(class);
    let object = Expr { place, kind };
    add(body, place, StmtKind::Local(ty, name, object))
}

// Appends the declarations of counters.
#[tactic(auto, using(crate::proofs::Trees::name_steps))]
fn add_counters(
    alloc: Global,
    place: Place,
    names: &[Text],
    body: &mut List<Stmt>,
) -> Result<(), Memory>
    ensures { OnOk result (map stmt_of body.new.items ≡ map stmt_of body.old.items ++ map (new_counter place) names.now) }
{
    for name in names {
        add_counter(place, name, body)?;
    }
    Ok(())
}

// Appends the declaration of a counter.
#[tactic(auto, using(crate::proofs::Trees::views))]
fn add_counter(place: Place, name: &Text, body: &mut List<Stmt>) -> Result<(), Memory>
    ensures { OnOk result (map stmt_of body.new.items ≡ map stmt_of body.old.items ++ new_counter place name.now ∷ []) }
{
    let zero = number(place, 0)?;
    let name = name.copy()?;
    add(body, place, StmtKind::Local(TypeName::Int, name, zero))
}

// The object, and the counters.
fn part_params(alloc: Global, about: &About<'_>) -> Result<List<Param>, Memory>
    ensures { IfOk result (λ ps. ps.items ≡ part_params (making about.now)) }
{
    let place = about.place;
    let class = joined(alloc, about.local.me().as_str(), "Role")?;
    let name = Text::of(alloc, ROLE)?;
    let mut params = List::new(alloc);
    params.push(Param {
        place,
        ty: TypeName::Named(class),
        name,
    })?;
    add_counter_params(place, about.counters, &mut params)?;
    Ok(params)
}

// Appends parameters for counters.
#[tactic(auto, using(crate::proofs::Trees::name_steps))]
fn add_counter_params(place: Place, names: &[Text], params: &mut List<Param>) -> Result<(), Memory>
    ensures { OnOk result (params.new.items ≡ params.old.items ++ map (counter_param place) names.now) }
{
    for name in names {
        let name = name.copy()?;
        let ty = TypeName::Int;
        params.push(Param { place, ty, name })?;
    }
    Ok(())
}
