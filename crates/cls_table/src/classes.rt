//! Classes in kinds, by their numbers in the program, and their fields and methods by theirs.

ghost use Rattle.std.specs.Prelude.{◌≡◌, ℕ, ◌+◌, ◌<◌, ◌∷◌, [], map, length, get_or, slice_get, option_map, option_copied, if◌then◌else◌};
ghost use Rattle.std.specs.Prelude.{IfOk};
ghost use Rattle.mg_text.specs.Call.{Name as Named};
ghost use Rattle.vm_model.specs.View.{classes_of, class_of, method_of, field_of};
ghost use Rattle.cls_verify.specs.Kinds.{Instance};
ghost use Rattle.cls_kinds.specs.Named.{kind_of};
ghost use Rattle.cls_table.specs.Known.{KnowsFields, KnowsMethod, KnowsMethods, KnowsClass, KnowsClasses};
ghost use Rattle.cls_table.specs.Counted.{IsCount, AreCounted};
ghost use Rattle.cls_table.specs.Tables.{field_kind, IsMethod, AreMethods, IsClass, IsCountedOne, AreClasses, AreKinds};

use crate::names::{class_names, number_of};
use crate::types::{add_kinds, kind_of_some};
use cls_kinds::Kind;
use mg_text::{Memory, Names};
use std::alloc::Global;
use vm_model::{Linked, LinkedClass, LinkedField, LinkedMethod, is_built_in};

/// A method in kinds: what it takes, the object first where it isn't static, and what it answers.
#[derive(Drop)]
pub struct MethodKinds {
    pub takes: Vec<Kind>,
    pub result: Option<Kind>,
    pub is_static: bool,
    pub max_locals: u16,
}

/// A class in kinds.
#[derive(Drop)]
pub struct ClassKinds {
    /// Its objects.
    pub kind: Kind,
    /// Whether it has the name of a built-in class.
    pub is_built_in: bool,
    /// Whether no other class has its name, nor a built-in one.
    pub is_own: bool,
    pub fields: Vec<Option<Kind>>,
    pub methods: Vec<MethodKinds>,
}

/// A program in kinds.
pub struct ProgramKinds {
    /// The names of classes, whose places number the kinds of objects.
    pub names: Names,
    pub classes: Vec<ClassKinds>,
}

// One call lets go of it, wherever a function ends.
impl Drop for ProgramKinds {
    fn drop(self) {
        let ProgramKinds {
            names: _,
            classes: _,
        } = self;
    }
}

/// Counts one more, up to 2.
fn count_one(counts: &mut [u8], number: usize)
    requires { number < length counts.old }
    ensures many { length counts.new ≡ length counts.old }
    ensures counted { (t : ℕ) → IsCount t (get_or counts.old number 0) → IsCount (t + 1) (get_or counts.new number 0) }
    ensures others { (other : ℕ) → (other ≡ number → ⊥) → get_or counts.new other 0 ≡ get_or counts.old other 0 }
{
    if counts[number] < 2 {
        counts[number] += 1;
    }
}

/// Whether no, one or more classes have each name, by its number.
fn counts(alloc: Global, classes: &[LinkedClass], names: &Names) -> Result<Vec<u8>, Memory>
    requires { KnowsClasses names.now classes.now }
    ensures many { IfOk result (λ v. length v.items ≡ length names.now) }
    ensures counted { IfOk result (λ v. AreCounted names.now (classes_of classes.now) v.items) }
{
    let mut counts = vec![in alloc; 0u8; names.len()]?;
    for class in classes {
        let number = number_of(names, class.name.as_str());
        count_one(counts.as_mut_slice(), number as usize);
    }
    Ok(counts)
}

/// The kinds of fields.
fn field_kinds(
    alloc: Global,
    names: &Names,
    fields: &[LinkedField],
) -> Result<Vec<Option<Kind>>, Memory>
    requires { KnowsFields names.now fields.now }
    ensures { IfOk result (λ v. map (option_map (kind_of names.now)) v.items ≡ map (λ f. field_kind (field_of f)) fields.now) }
{
    let mut kinds = Vec::new(alloc);
    for field in fields {
        kinds.push(kind_of_some(names, &field.field_type))?;
    }
    Ok(kinds)
}

/// The object that a method takes, if it takes one.
fn receivers(alloc: Global, receiver: Kind, is_static: bool) -> Result<Vec<Kind>, Memory>
    ensures { IfOk result (λ v. v.items ≡ (if is_static then [] else receiver ∷ [])) }
{
    let mut takes = Vec::new(alloc);
    if !is_static {
        takes.push(receiver)?;
    }
    Ok(takes)
}

/// A method in kinds.
fn method_kinds(
    alloc: Global,
    names: &Names,
    receiver: Kind,
    method: &LinkedMethod,
) -> Result<MethodKinds, Memory>
    requires { KnowsMethod names.now method.now }
    ensures { (class : Named) → kind_of names.now receiver ≡ Instance class →
        IfOk result (λ x. IsMethod names.now class (method_of method.now) x) }
{
    let mut takes = receivers(alloc, receiver, method.is_static)?;
    add_kinds(&mut takes, names, method.params.as_slice())?;
    let result = kind_of_some(names, &method.result);
    Ok(MethodKinds {
        takes,
        result,
        is_static: method.is_static,
        max_locals: method.max_locals,
    })
}

/// Methods in kinds.
fn methods_kinds(
    alloc: Global,
    names: &Names,
    receiver: Kind,
    methods: &[LinkedMethod],
) -> Result<Vec<MethodKinds>, Memory>
    requires { KnowsMethods names.now methods.now }
    ensures { (class : Named) → kind_of names.now receiver ≡ Instance class →
        IfOk result (λ v. AreMethods names.now class (map method_of methods.now) v.items) }
{
    let mut kinds = Vec::new(alloc);
    for method in methods {
        let method = method_kinds(alloc, names, receiver, method)?;
        kinds.push(method)?;
    }
    Ok(kinds)
}

/// A class in kinds.
fn class_kinds(
    alloc: Global,
    names: &Names,
    counts: &[u8],
    class: &LinkedClass,
) -> Result<ClassKinds, Memory>
    requires many { length counts.now ≡ length names.now }
    requires known { KnowsClass names.now class.now }
    ensures is { IfOk result (λ x. IsClass names.now (class_of class.now) x) }
    ensures own { IfOk result (λ x. IsCountedOne names.now counts.now (class_of class.now) x) }
{
    let name = class.name.as_str();
    let number = number_of(names, name);
    let kind = Kind(number + 4);
    let is_built_in = is_built_in(name);
    let is_alone = counts[number as usize] == 1;
    let fields = field_kinds(alloc, names, class.fields.as_slice())?;
    let methods = methods_kinds(alloc, names, kind, class.methods.as_slice())?;
    Ok(ClassKinds {
        kind,
        is_built_in,
        is_own: is_alone && !is_built_in,
        fields,
        methods,
    })
}

/// Classes in kinds.
fn classes_kinds(
    alloc: Global,
    names: &Names,
    counts: &[u8],
    classes: &[LinkedClass],
) -> Result<Vec<ClassKinds>, Memory>
    requires many { length counts.now ≡ length names.now }
    requires known { KnowsClasses names.now classes.now }
    ensures { IfOk result (λ v. AreClasses names.now counts.now (classes_of classes.now) v.items) }
{
    let mut kinds = Vec::new(alloc);
    for class in classes {
        let class = class_kinds(alloc, names, counts, class)?;
        kinds.push(class)?;
    }
    Ok(kinds)
}

impl ProgramKinds {
    /// A program in kinds.
    ///
    /// # Errors
    /// `Memory` only.
    pub fn of(alloc: Global, linked: &Linked) -> Result<ProgramKinds, Memory>
        ensures { IfOk result (λ k. AreKinds linked.now k) }
    {
        let classes = linked.classes();
        let names = class_names(alloc, classes)?;
        let counts = counts(alloc, classes, &names)?;
        let classes = classes_kinds(alloc, &names, counts.as_slice(), classes)?;
        Ok(ProgramKinds { names, classes })
    }

    /// The class of a number.
    pub fn class(&self, class: u32) -> Option<&ClassKinds>
        ensures { option_copied result ≡ slice_get self.now.classes.items class }
    {
        self.classes.get(class as usize)
    }
}
