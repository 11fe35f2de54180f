//! The kinds of a message's segments, counted.
use fints_rules::Permissions;
use fints_rules::kinds::is_plain_order;
use fints_syntax::{Kind, Memory};

/// The kinds of the segments of a message's body.
#[derive(Drop)]
pub struct Kinds {
    sorted: Vec<Kind>,
    demanding: usize,
}

impl Kinds {
    /// Those of this list, under what a bank permits.
    pub fn of(mut kinds: Vec<Kind>, permissions: &Permissions<'_>) -> Kinds {
        kinds.sort_unstable();
        let demanding = kinds
            .iter()
            .filter(|it| permissions.is_demanding(**it))
            .count();
        Kinds {
            sorted: kinds,
            demanding,
        }
    }

    /// How many segments have this kind.
    pub fn count(&self, kind: Kind) -> usize {
        let from = self.sorted.partition_point(|it| it.cmp(&kind).is_lt());
        let to = self.sorted.partition_point(|it| it.cmp(&kind).is_le());
        to.saturating_sub(from)
    }

    /// How many of them are orders that are listed with J.
    pub fn demanding(&self) -> usize {
        self.demanding
    }

    /// How many different kinds of orders other than HKTAN there are.
    pub fn plain(&self) -> usize {
        let mut count: usize = 0;
        let mut last = None;
        for kind in self.sorted.as_slice() {
            if is_plain_order(*kind) && last != Some(*kind) {
                count = count.saturating_add(1);
            }
            last = Some(*kind);
        }
        count
    }
}
