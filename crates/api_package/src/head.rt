//! What stands before the text of a file that is in a package: the line of the package, a line for
//! each class that is imported, and an empty line.

ghost use Rattle.std.specs.Prelude.{◌≡◌, [], IfOk};
ghost use Rattle.api_package.specs.Heads.{head, class_imports};

use mg_text::{Memory, Text};
use std::alloc::Global;

/// What stands before the text of the class of a role, which imports `Session` and `Typestate` of
/// `mungo.lib`.
///
/// # Errors
/// `Memory` only.
pub fn class_head(alloc: Global, package_name: &Text) -> Result<Text, Memory>
    ensures { IfOk result (λ t. t ≡ head package_name.now class_imports) }
{
    let package_name = package_name.as_str();
    let text = format!(in alloc;
        "package {package_name};\nimport mungo.lib.Session;\nimport mungo.lib.Typestate;\n\n"
    )?;
    Ok(Text::from_string(text))
}

/// What stands before the text of an enum, which imports nothing.
///
/// # Errors
/// `Memory` only.
pub fn enum_head(alloc: Global, package_name: &Text) -> Result<Text, Memory>
    ensures { IfOk result (λ t. t ≡ head package_name.now []) }
{
    let package_name = package_name.as_str();
    let text = format!(in alloc; "package {package_name};\n\n")?;
    Ok(Text::from_string(text))
}
