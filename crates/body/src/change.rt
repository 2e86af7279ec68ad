// A change of a label template.
ghost use Rattle.std.specs.Prelude.{◌≡◌, true};
ghost use Rattle.body.specs.Ranges.{change_ok};

// What a template change does.
#[derive(Clone, Copy, PartialEq, Eq, Debug)]
pub enum ChangeKind {
    // a field of a template gets a value
    Set = 0,
    // a field of a template has no value any more
    ClearField = 1,
    // a template and all of its fields end
    DropTemplate = 2,
}

// A change of a template. What its kind does not use is 0.
#[derive(Clone, Copy, PartialEq, Eq, Debug)]
pub struct TemplateChange {
    pub what: ChangeKind,
    pub template: u32,
    pub field: u32,
    pub value: u32,
    ghost ok: { change_ok what template field value ≡ true },
}

// A change as a plain row: its kind is a number too, since rows have no ranges and lie in cells and stores.
#[derive(Clone, Copy, PartialEq, Eq, Debug)]
pub struct ChangeRow {
    pub what: u32,
    pub template: u32,
    pub field: u32,
    pub value: u32,
}
