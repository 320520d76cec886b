//! The law of generated files in a package.
//! Their heads are read and dropped, so their texts spell what they spell without.

ghost use Rattle.api_package.specs.Heads.{HeadedAreSpelled};

/// The text of each file of a valid local protocol's API, in a package where one is named, spells,
/// as any file, the file's tree, places aside, where the text is no longer than a file.
pub fn headed_are_spelled()
    ensures { HeadedAreSpelled }
{}
