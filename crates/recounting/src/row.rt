// What is printed of one type: its share in the draft, and the share by all groups. Nothing is printed if it has no homes.
ghost use Rattle.std.specs.Prelude.{◌≡◌, Some};
ghost use Rattle.recounting.specs.Texts.{row_text};

use composition::DemandType;
use every_group::ByGroups;
use std::fmt;

#[derive(Clone, Copy)]
pub(crate) struct Row {
    pub(crate) of: DemandType,
    pub(crate) shares: Option<(i64, ByGroups)>,
}

impl fmt::Display for Row {
    ghost output = { λ row. Some (row_text row) };

    fn fmt<W: fmt::Write>(&self, f: &mut fmt::Formatter<W>) -> fmt::Result {
        let Some(
            (
                share,
                ByGroups {
                    share: again,
                    groups,
                },
            ),
        ) = self.shares
        else {
            return Ok(());
        };
        let number = u8::from(self.of);
        writeln!(
            f,
            "type {number} share {share} again {again} groups {groups}"
        )
    }
}
