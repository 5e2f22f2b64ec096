// How a group comes to be refused, and with which number.
use crate::{GroupRefused, NoDistance};
use group_rows::NoRow;

impl From<NoRow> for GroupRefused {
    ghost use Rattle.std.specs.Prelude.{◌≡◌};
    ghost use Rattle.group.specs.declared.GroupRefused.{GroupRefused};

    ghost from_gives = { λ _ e. e ≡ GroupRefused.NoRow };

    fn from(_none: NoRow) -> GroupRefused {
        GroupRefused::NoRow
    }
}

impl From<NoDistance> for GroupRefused {
    ghost use Rattle.std.specs.Prelude.{◌≡◌};
    ghost use Rattle.group.specs.declared.GroupRefused.{GroupRefused};

    ghost from_gives = { λ _ e. e ≡ GroupRefused.NoDistance };

    fn from(_none: NoDistance) -> GroupRefused {
        GroupRefused::NoDistance
    }
}

// The number of the refusal in document 01's table.
impl From<GroupRefused> for u8 {
    ghost use Rattle.std.specs.Prelude.{◌≡◌};
    ghost use Rattle.group.specs.Says.{refused_as};

    ghost from_gives = { λ refused n. n ≡ refused_as refused };

    fn from(refused: GroupRefused) -> u8 {
        match refused {
            GroupRefused::One => 10,
            GroupRefused::Many => 11,
            GroupRefused::Unread => 12,
            GroupRefused::NoRow => 13,
            GroupRefused::NoDistance => 15,
        }
    }
}
