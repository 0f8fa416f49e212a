ghost use Rattle.std.specs.Prelude.{◌≡◌, None, IfOk};
ghost use Rattle.moment_query.specs.Queries.{IsStateText};

use crate::held::areas_at;
use crate::rows::{push_areas, push_versions};
use field_text::Moment;
use map_core::Core;
use rd_plane::{NoMemory, Text};
use std::alloc::Global;

/// The text of the state at the moment: each area that holds, by rising holder, and then each version that holds, by rising
/// identification. Looks at all versions, and sorts those that hold.
pub fn state_text(alloc: Global, core: &Core, moment: Moment) -> Result<Text, NoMemory>
    requires { core.now.tried ≡ None }
    ensures { IfOk result (λ text. IsStateText core.now.state moment text) }
{
    let areas = areas_at(alloc, core.areas(), moment)?;
    let versions = core.history().at(alloc, moment)?;
    let mut text = Text::new(alloc);
    push_areas(alloc, &mut text, &areas)?;
    push_versions(&mut text, &versions)?;
    Ok(text)
}
