//! The files of an API.

ghost use Rattle.std.specs.Prelude.{◌≡◌, ◌++◌, [], ◌∷◌, ℕ, IfOk, OnOk, map, codes, is_some, position, not};
ghost use Rattle.std.specs.Str.{bytes_eq};
ghost use Rattle.mg_text.specs.Interned.{with_text};
ghost use Rattle.mg_text.specs.Places.{start_of};
ghost use Rattle.scr_tree.specs.Local.{tree_of};
ghost use Rattle.jv_tree.specs.View.{decl_of, class_of as kept_class, method_of as kept_method};
ghost use Rattle.stm_api.specs.Api.{IsApi, written, class_file, class_with, enum_file, enum_files, method_of};
ghost use Rattle.stm_api.specs.View.{written_of};
ghost use Rattle.stm_api.specs.inner.Does.{firsts_of};
ghost use Rattle.stm_api.specs.inner.View.{doing_of, names_of};

use crate::doings::{Doing, doings_of};
use crate::methods::{call_of, method_of};
use jv_print::print_file;
use jv_tree::{Class, Decl, Enum, File, MethodDecl};
use mg_text::{List, Memory, Names, Place, Text};
use scr_tree::Local;
use std::alloc::Global;
use stm_gen::choice_enum;

/// A file of an API: its name, what it holds, and the text of that. Places are the first of the
/// protocol's file.
#[derive(Drop)]
pub struct ApiFile {
    pub name: Text,
    pub tree: File,
    pub text: Text,
}

/// The files by which a program plays the role of a protocol: the class, with a method for each
/// call in the order of the text, and then the enums of the choices that other roles make, by
/// their numbers. The only error is `Memory`, where there is too little of it.
pub fn api(alloc: Global, local: &Local) -> Result<List<ApiFile>, Memory>
    ensures { IfOk result (λ fs. IsApi (tree_of local.now) (map written_of fs.items)) }
{
    let doings = doings_of(alloc, local)?;
    let place = Place::start(local.file());
    let class = class_file(alloc, local, place, doings.as_slice())?;
    let mut files = List::new(alloc);
    files.push(class)?;
    add_enums(alloc, local.me(), place, doings.as_slice(), &mut files)?;
    Ok(files)
}

// The file of the class.
fn class_file(
    alloc: Global,
    local: &Local,
    place: Place,
    doings: &[Doing<'_>],
) -> Result<ApiFile, Memory>
    ensures { IfOk result (λ f. written_of f ≡ class_file place (tree_of local.now).me
        (firsts_of (tree_of local.now).me [] (map doing_of doings.now))) }
{
    let methods = methods_of(alloc, local, place, doings)?;
    let name = joined(alloc, local.me(), "Role")?;
    let typestate = joined(alloc, local.me(), "Protocol")?;
    let file = joined(alloc, local.me(), "Role.java")?;
    let class = Class {
        place,
        name,
        typestate: Some(typestate),
        fields: List::new(alloc),
        methods,
    };
    file_of(alloc, file, Decl::Class(class))
}

// The methods of the calls, each once.
#[tactic(auto, using(crate::proofs::Made::method_steps))]
fn methods_of(
    alloc: Global,
    local: &Local,
    place: Place,
    doings: &[Doing<'_>],
) -> Result<List<MethodDecl>, Memory>
    ensures { IfOk result (λ ms. map kept_method ms.items ≡ map (method_of place (tree_of local.now).me)
        (firsts_of (tree_of local.now).me [] (map doing_of doings.now))) }
{
    let mut seen = Names::new(alloc);
    let mut methods = List::new(alloc);
    for doing in doings {
        let name = call_of(alloc, local, doing)?;
        let is_new = add_call(name.as_str(), &mut seen)?;
        if !is_new {
            continue;
        }
        let method = method_of(alloc, local, place, name, doing)?;
        methods.push(method)?;
    }
    Ok(methods)
}

// Adds the name of a method to those that were seen, and answers whether it is new.
fn add_call(call: &str, seen: &mut Names) -> Result<bool, Memory>
    ensures added { OnOk result (seen.new ≡ with_text seen.old call.now) }
    ensures new { IfOk result (λ b. b ≡ not (is_some (position (bytes_eq call.now) seen.old))) }
{
    if seen.find(call).is_some() {
        return Ok(false);
    }
    if seen.len() >= MOST_NAMES {
        return Err(Memory);
    }
    seen.add(call)?;
    Ok(true)
}

// As many names have numbers.
const MOST_NAMES: usize = 0x1_0000_0000;

// Appends the files of the enums.
#[tactic(auto, using(crate::proofs::Made::enum_steps))]
fn add_enums(
    alloc: Global,
    me: &Text,
    place: Place,
    doings: &[Doing<'_>],
    files: &mut List<ApiFile>,
) -> Result<(), Memory>
    ensures { OnOk result (map written_of files.new.items ≡ map written_of files.old.items ++ enum_files place me.now
        (map doing_of doings.now)) }
{
    for doing in doings {
        let Doing::Asks(number, _, labels) = doing else {
            continue;
        };
        let file = enum_file(alloc, me, place, *number, labels.as_slice())?;
        files.push(file)?;
    }
    Ok(())
}

// The file of the enum of a choice.
fn enum_file(
    alloc: Global,
    me: &Text,
    place: Place,
    number: u32,
    labels: &[&Text],
) -> Result<ApiFile, Memory>
    ensures { IfOk result (λ f. written_of f ≡ enum_file place me.now number (names_of labels.now)) }
{
    let name = choice_enum(alloc, me.as_str(), number)?;
    let file = joined(alloc, &name, ".java")?;
    let constants = copies(alloc, labels)?;
    let of = Enum {
        place,
        name,
        constants,
    };
    file_of(alloc, file, Decl::Enum(of))
}

// Texts of their own.
fn copies(alloc: Global, texts: &[&Text]) -> Result<List<Text>, Memory>
    ensures { IfOk result (λ ts. ts.items ≡ names_of texts.now) }
{
    let mut copies = List::new(alloc);
    for text in texts {
        let copy = text.copy()?;
        copies.push(copy)?;
    }
    Ok(copies)
}

// A file that holds this.
fn file_of(alloc: Global, name: Text, decl: Decl) -> Result<ApiFile, Memory>
    ensures { IfOk result (λ f. written_of f ≡ written name (decl_of decl ∷ [])) }
{
    let mut decls = List::new(alloc);
    decls.push(decl)?;
    let tree = File { decls };
    let text = print_file(alloc, &tree)?;
    Ok(ApiFile { name, tree, text })
}

// A text with another behind it.
fn joined(alloc: Global, text: &Text, behind: &str) -> Result<Text, Memory>
    ensures { IfOk result (λ t. t ≡ text.now ++ behind.now) }
{
    let mut joined = String::new(alloc);
    joined.push_str(text.as_str())?;
    joined.push_str(behind)?;
    Ok(Text::from_string(joined))
}
