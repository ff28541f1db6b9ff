//! Names in lower case, by which lines are looked up: two names are one exactly where they are
//! folded to the same bytes.
ghost use Rattle.std.specs.Prelude.{◌≡◌, [], IfOk, OnOk, OnErr, Some, bytes_eq, refl};
ghost use Rattle.std.specs.Cmp.{partial_equiv_from_equiv, partial_order_from_agreeing_total};
ghost use Rattle.std.specs.Cmp.Lexicographic.{nat_list_eq_equiv};
ghost use Rattle.hx_fields.specs.Folded.{folded, folded_names_cmp, folded_cmp_total, folded_cmp_ties_are_equal};
ghost use Rattle.hx_fields.specs.Folded.{number_of};

use std::alloc::{AllocError, Global};
use std::cmp::Ordering;
use std::marker::Model;

/// A name in lower case, of which contracts see the bytes.
///
/// Its order is that of a map in which the lines of a head are found by their names, whatever a
/// peer chose for them: by a number of each first, which tells most of two apart at once. Names
/// that a peer made to have one number are told apart by their bytes.
#[derive(Debug, Drop)]
pub struct FoldedName {
    number: u64,
    text: Vec<u8>,
}

impl Model for FoldedName {
    ghost use Rattle.std.specs.Prelude.{List, ℕ, ◌≡◌};
    ghost use Rattle.hx_fields.specs.Folded.{number_of};

    ghost Value = { List ℕ };

    ghost view = { λ n. n.text.items };

    ghost invariant = { λ n. n.number ≡ number_of n.text.items };
}

/// The number of a name that is folded.
#[tactic(auto, unfolding(crate::specs::Folded::number_of))]
fn number_of(text: &[u8]) -> u64
    ensures { result ≡ number_of text.now }
{
    text.iter().fold(0u64, |number, byte| {
        number.wrapping_mul(257).wrapping_add(u64::from(*byte))
    })
}

impl FoldedName {
    /// No bytes, to be set to names.
    #[tactic(auto, unfolding(crate::specs::Folded::number_of))]
    pub fn new(alloc: Global) -> FoldedName
        ensures { result ≡ [] }
    {
        FoldedName {
            number: 0,
            text: Vec::new(alloc),
        }
    }

    /// A name, folded. Fails only where memory runs out.
    pub fn of(alloc: Global, name: &[u8]) -> Result<FoldedName, AllocError>
        ensures { IfOk result (λ it. it ≡ folded name.now) }
    {
        let mut text = Vec::from_slice(alloc, name)?;
        text.as_mut_slice().make_ascii_lowercase();
        Ok(FoldedName {
            number: number_of(text.as_slice()),
            text,
        })
    }

    /// Becomes another name, in the memory that it has where that is enough. Out of memory changes nothing.
    pub fn set(&mut self, name: &[u8]) -> Result<(), AllocError>
        ensures ok { OnOk result (self.new ≡ folded name.now) }
        ensures err { OnErr result (self.new ≡ self.old) }
    {
        self.text.reserve(name.len())?;
        self.text.clear();
        self.text.extend_from_slice(name)?;
        self.text.as_mut_slice().make_ascii_lowercase();
        self.number = number_of(self.text.as_slice());
        Ok(())
    }
}

impl PartialEq for FoldedName {
    ghost eq = { bytes_eq };

    ghost laws = { partial_equiv_from_equiv nat_list_eq_equiv };

    fn eq(&self, other: &FoldedName) -> bool {
        self.text.as_slice() == other.text.as_slice()
    }
}

impl Eq for FoldedName {
    ghost laws = { nat_list_eq_equiv };
}

impl PartialOrd for FoldedName {
    ghost partial_cmp = { λ a b. Some (folded_names_cmp a b) };

    ghost laws = { partial_order_from_agreeing_total folded_names_cmp folded_cmp_total
        (λ _ _. refl) folded_cmp_ties_are_equal };

    fn partial_cmp(&self, other: &FoldedName) -> Option<Ordering> {
        Some(self.cmp(other))
    }
}

impl Ord for FoldedName {
    ghost cmp = { folded_names_cmp };

    ghost total = { folded_cmp_total };

    ghost matches_partial_cmp = { λ _ _. refl };

    ghost matches_eq = { folded_cmp_ties_are_equal };

    fn cmp(&self, other: &FoldedName) -> Ordering {
        self.number
            .cmp(&other.number)
            .then_with(|| self.text.as_slice().cmp(other.text.as_slice()))
    }
}
