// Making a change, and a change as words and as a row.
ghost use Rattle.std.specs.Prelude.{◌≡◌, [], ◌∷◌};
ghost use Rattle.std.specs.Option.{ok_or};
ghost use Rattle.body.specs.Faults.{unfit};
ghost use Rattle.body.specs.Ranges.{change_number, change_named, uses};
ghost use Rattle.body.specs.Changes.{change_of, change_words, change_allows, change_rebuilt, change_row, change_remade};
ghost use Rattle.body.specs.ChangesLemmas.{change_written, change_of_self, change_plain};
ghost use Rattle.std.proofs.Common.{rules};

use crate::change::{ChangeKind, ChangeRow, TemplateChange};
use crate::faults::{UNFIT, WireFault};
use crate::kind::Body;

// The kind of a number, if there is one.
impl TryFrom<u32> for ChangeKind {
    type Error = WireFault;

    ghost try_from_gives = { λ number r. r ≡ ok_or (change_named number) unfit };

    fn try_from(number: u32) -> Result<ChangeKind, WireFault> {
        match number {
            0 => Ok(ChangeKind::Set),
            1 => Ok(ChangeKind::ClearField),
            2 => Ok(ChangeKind::DropTemplate),
            _ => Err(UNFIT),
        }
    }
}

// The number of a kind, as it stands in a body's first word.
impl From<ChangeKind> for u32 {
    ghost from_gives = { λ kind r. r ≡ change_number kind };

    fn from(kind: ChangeKind) -> u32 {
        kind as u32
    }
}

impl ChangeKind {
    fn uses(self, field: u32, value: u32) -> bool
        ensures { result ≡ uses self field value }
    {
        match self {
            ChangeKind::Set => true,
            ChangeKind::ClearField => value == 0,
            ChangeKind::DropTemplate => field == 0 && value == 0,
        }
    }
}

impl TemplateChange {
    // A change from plain numbers, as words and rows have them, its kind's too: any four numbers have an answer.
    pub fn new(
        what: u32,
        template: u32,
        field: u32,
        value: u32,
    ) -> Result<TemplateChange, WireFault>
        ensures { result ≡ ok_or (change_of what template field value) unfit }
    {
        let what = ChangeKind::try_from(what)?;
        if !what.uses(field, value) {
            return Err(UNFIT);
        }
        Ok(TemplateChange {
            what,
            template,
            field,
            value,
        })
    }

    // A field of a template gets a value.
    pub fn set(template: u32, field: u32, value: u32) -> TemplateChange
        ensures { change_words result ≡ 0 ∷ (template ∷ (field ∷ (value ∷ []))) }
    {
        TemplateChange {
            what: ChangeKind::Set,
            template,
            field,
            value,
        }
    }

    // A field of a template has no value any more.
    pub fn clear_field(template: u32, field: u32) -> TemplateChange
        ensures { change_words result ≡ 1 ∷ (template ∷ (field ∷ (0 ∷ []))) }
    {
        TemplateChange {
            what: ChangeKind::ClearField,
            template,
            field,
            value: 0,
        }
    }

    // A template and all of its fields end.
    pub fn drop_template(template: u32) -> TemplateChange
        ensures { change_words result ≡ 2 ∷ (template ∷ (0 ∷ (0 ∷ []))) }
    {
        TemplateChange {
            what: ChangeKind::DropTemplate,
            template,
            field: 0,
            value: 0,
        }
    }
}

impl Body for TemplateChange {
    type Row = ChangeRow;

    ghost count = { 4 };

    ghost words = { change_words };

    ghost allows = { change_allows };

    ghost rebuilt = { change_rebuilt };

    ghost row = { change_row };

    ghost remade = { change_remade };

    ghost few = { Prim.search rules };

    ghost counted = { Prim.search rules };

    ghost ranged = { Prim.search rules };

    ghost written = { change_written };

    ghost rebuilding = { change_of_self };

    ghost remaking = { change_of_self };

    ghost plain = { change_plain };

    fn word_count() -> usize {
        4
    }

    fn word(self, i: usize) -> u32 {
        match i {
            0 => self.what.into(),
            1 => self.template,
            2 => self.field,
            3 => self.value,
            _ => 0,
        }
    }

    // The kind by its number: what is in range is defined of words, and the reader asks this of each.
    fn in_range(before: &[u32], word: u32) -> bool {
        match before {
            [] => word <= 2,
            [_] => true,
            [what, _] => *what != 2 || word == 0,
            [what, _, _] => *what == 0 || word == 0,
            _ => false,
        }
    }

    fn from_words(given: &[u32]) -> Option<TemplateChange> {
        match *given {
            [what, template, field, value] => {
                TemplateChange::new(what, template, field, value).ok()
            }
            _ => None,
        }
    }

    fn to_row(self) -> ChangeRow {
        ChangeRow {
            what: self.what.into(),
            template: self.template,
            field: self.field,
            value: self.value,
        }
    }

    fn from_row(given: ChangeRow) -> Option<TemplateChange> {
        TemplateChange::new(given.what, given.template, given.field, given.value).ok()
    }
}
