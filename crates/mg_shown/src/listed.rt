//! The calls of a program by file and place.

ghost use Rattle.std.specs.Prelude.{IfOk};
ghost use Rattle.mg_shown.specs.Shown.{AreListed};

use crate::sites::all_sites;
use jv_core::Core;
use mg_text::Memory;
use std::alloc::Global;
use use_sights::Site;

/// The calls of a program, by file and then by place; calls at one place stand in the order of the text.
pub fn listed(alloc: Global, core: &Core) -> Result<Vec<Site>, Memory>
    ensures { IfOk result (λ v. AreListed core.now v.items) }
{
    let mut sites = all_sites(alloc, core)?;
    sites.sort_by_key(|site| (site.place.file, site.place.line, site.place.column))?;
    Ok(sites)
}
