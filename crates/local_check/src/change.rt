use imgeo_types::Idents;
use level_rules::LevelItems;
use part_shape::ShapeList;

/// What a message changes of its holder's map.
#[derive(Debug, Drop)]
pub struct Change {
    /// The new area. `None` where it stays.
    pub area: Option<ShapeList>,
    /// The objects that go: all current, each named once.
    pub leaving: Idents,
    /// The objects that come, each with an identification that is free once those have gone.
    pub coming: LevelItems,
}
