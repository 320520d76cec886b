//! What a run is asked for, read off the words of its options.

ghost use Rattle.std.specs.Prelude.{◌≡◌, ◌≢◌, ◌<◌, ◌^◌, ℕ, [], ◌∷◌, codes, All, Contains, length, IfOk};
ghost use Rattle.std.specs.List.{IsDistinct, range_with_len};
ghost use Rattle.std.specs.Str.{bytes_eq};
ghost use Rattle.mg_words.specs.Words.{Alone, mains_in, mains_of, role_names, order_of, order_among, are_named};
ghost use Rattle.mg_words.specs.inner.Judging.{asked_of, cast_of, role_classes_of, roles_in, names_in, IsAsked};

use crate::roles::{first_name, next_role};
use mg_text::{List, Memory, Names, Text};
use std::alloc::Global;

/// A role, and the class whose `main` it runs.
#[derive(Drop)]
pub struct RoleClass {
    /// The role's name.
    pub role: Text,
    /// The class's name.
    pub class: Text,
}

/// What a run is asked for.
#[derive(Clone, Copy)]
pub struct Asked<'a> {
    /// The most instructions that it takes, where the number is named: from 1 to 20,000,000.
    pub steps: Option<u32>,
    /// Whether its trace is told.
    pub traced: bool,
    /// Where class files are written.
    pub folder: Option<&'a Text>,
    // The class that runs alone, where it is named.
    pub(crate) class: Option<&'a Text>,
    // The names of roles in the order of their turns, where it is named.
    pub(crate) order: Option<&'a Text>,
    // The words of the options, which name the roles.
    pub(crate) words: &'a [Text],
}

impl Asked<'_> {
    /// Whether what is printed begins with the role: where roles are named, and not a class alone.
    pub fn is_named(&self) -> bool
        ensures { result ≡ are_named (asked_of self.now) }
    {
        self.class.is_none()
    }

    /// The roles in the order of the words, each with its class. A class that runs alone has the role `main`.
    ///
    /// # Errors
    /// `Memory` only.
    pub fn mains(&self, alloc: Global) -> Result<List<RoleClass>, Memory>
        requires { IsAsked (asked_of self.now) }
        ensures items { IfOk result (λ l. role_classes_of l.items ≡ mains_of (asked_of self.now)) }
        ensures distinct { IsDistinct bytes_eq (role_names (mains_of (asked_of self.now))) }
        ensures some { mains_of (asked_of self.now) ≢ [] }
        ensures few { IfOk result (λ l. length (mains_of (asked_of self.now)) < 2 ^ 32) }
    {
        let mains = self.roles(alloc)?;
        // A list says how many items it has at most.
        let _few = mains.len();
        Ok(mains)
    }

    // The same, with no law of it.
    fn roles(&self, alloc: Global) -> Result<List<RoleClass>, Memory>
        ensures { IfOk result (λ l. role_classes_of l.items ≡ mains_of (asked_of self.now)) }
    {
        match self.class {
            Some(class) => one_main(alloc, class),
            None => roles_of(alloc, self.words),
        }
    }

    /// The numbers of the roles in the order of their turns: as they are named, or each once in the order of the words.
    /// A role's number is its place among `mains`.
    ///
    /// # Errors
    /// `Memory` only.
    pub fn order(&self, alloc: Global) -> Result<Vec<u32>, Memory>
        requires { IsAsked (asked_of self.now) }
        ensures items { IfOk result (λ v. v.items ≡ order_of (asked_of self.now)) }
        ensures below { All (λ n. n < length (mains_of (asked_of self.now))) (order_of (asked_of self.now)) }
        ensures each { (n : ℕ) → n < length (mains_of (asked_of self.now)) → Contains (order_of (asked_of self.now)) n }
    {
        let names = self.names(alloc)?;
        match self.order {
            Some(order) => numbers_named(alloc, &names, order.as_str()),
            None => numbers_below(alloc, names.len()),
        }
    }

    // The names of the roles, in the order of the words.
    fn names(&self, alloc: Global) -> Result<Names, Memory>
        requires { IsAsked (asked_of self.now) }
        ensures items { IfOk result (λ n. n ≡ role_names (mains_of (asked_of self.now))) }
        ensures few { IfOk result (λ n. length n < 2 ^ 32) }
    {
        match self.class {
            Some(_) => name_of_one(alloc),
            None => names_of_roles(alloc, self.words),
        }
    }
}

/// The roles that run together, each with its class.
#[derive(Clone, Copy)]
pub struct Cast<'a> {
    // The words of the options, which name the roles.
    pub(crate) words: &'a [Text],
}

impl Cast<'_> {
    /// The roles in the order of the words, each with its class.
    ///
    /// # Errors
    /// `Memory` only.
    pub fn mains(&self, alloc: Global) -> Result<List<RoleClass>, Memory>
        ensures items { IfOk result (λ l. role_classes_of l.items ≡ cast_of self.now) }
        ensures few { IfOk result (λ l. length (cast_of self.now) < 2 ^ 32) }
    {
        let mains = roles_of(alloc, self.words)?;
        // A list says how many items it has at most.
        let _few = mains.len();
        Ok(mains)
    }
}

const ALONE: &str = "main";

// The role `main` of this class.
fn one_main(alloc: Global, class: &Text) -> Result<List<RoleClass>, Memory>
    ensures { IfOk result (λ l. role_classes_of l.items ≡ mains_in (Alone class.now)) }
{
    let mut mains = List::new(alloc);
    mains.push(RoleClass {
        role: Text::of(alloc, ALONE)?,
        class: class.copy()?,
    })?;
    Ok(mains)
}

// The roles that these words name.
fn roles_of(alloc: Global, words: &[Text]) -> Result<List<RoleClass>, Memory>
    ensures { IfOk result (λ l. role_classes_of l.items ≡ roles_in words.now) }
{
    let mut mains = List::new(alloc);
    let mut left = words;
    while let Some((named, behind)) = next_role(left) {
        mains.push(RoleClass {
            role: Text::of(alloc, named.role)?,
            class: Text::of(alloc, named.class)?,
        })?;
        left = behind;
    }
    Ok(mains)
}

// The name of a role that runs alone.
fn name_of_one(alloc: Global) -> Result<Names, Memory>
    ensures items { IfOk result (λ n. n ≡ codes "main" ∷ []) }
    ensures few { IfOk result (λ n. length n < 2 ^ 32) }
{
    let mut names = Names::new(alloc);
    names.add(ALONE)?;
    Ok(names)
}

// The names of the roles that these words name, all of which differ.
fn names_of_roles(alloc: Global, words: &[Text]) -> Result<Names, Memory>
    requires { IsDistinct bytes_eq (role_names (roles_in words.now)) }
    ensures items { IfOk result (λ n. n ≡ role_names (roles_in words.now)) }
    ensures few { IfOk result (λ n. length n < 2 ^ 32) }
{
    let mut names = Names::new(alloc);
    let mut left = words;
    while let Some((named, behind)) = next_role(left) {
        if names.len() > LAST {
            return Err(Memory);
        }
        names.add(named.role)?;
        left = behind;
    }
    Ok(names)
}

// The largest number of a role.
const LAST: usize = 0xffff_fffe;

// The numbers of the names of a word, all of which stand in the table.
fn numbers_named(alloc: Global, names: &Names, word: &str) -> Result<Vec<u32>, Memory>
    ensures { IfOk result (λ v. v.items ≡ order_among names.now (Some (names_in word.now))) }
{
    let mut numbers = Vec::new(alloc);
    let mut left = Some(word);
    while let Some(text) = left {
        let (name, behind) = first_name(text);
        if let Some(found) = names.find(name) {
            numbers.push(found.0)?;
        }
        left = behind;
    }
    Ok(numbers)
}

// The numbers below this one.
fn numbers_below(alloc: Global, n: usize) -> Result<Vec<u32>, Memory>
    requires { n < 2 ^ 32 }
    ensures { IfOk result (λ v. v.items ≡ range_with_len 0 n) }
{
    let mut numbers = Vec::new(alloc);
    for number in 0..n as u32 {
        numbers.push(number)?;
    }
    Ok(numbers)
}
