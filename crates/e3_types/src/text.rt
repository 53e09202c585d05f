// Names and values, kept in place.
ghost use Rattle.std.specs.Prelude.{◌≡◌, ◌<◌, ◌≤◌, IsTrue, IfSome, IfNone, IsSome, false, ◌↔◌, length};
ghost use Rattle.std.specs.Prelude.{nat_eq, Some};
ghost use Rattle.std.specs.Cmp.Lexicographic.{pointwise, slice_cmp, nat_list_eq_equiv, nat_list_cmp_total, texts_ties, texts_po};
ghost use Rattle.std.specs.Ordering.{nat_cmp};
ghost use Rattle.std.specs.Cmp.{partial_equiv_from_equiv};
ghost use Rattle.std.proofs.Common.{rules};
ghost use Rattle.e3_types.specs.Same.{same_numbers};
ghost use Rattle.e3_types.specs.Text.{IsName, is_letter};

use std::cmp::Ordering;
use std::marker::Model;

/// 1 to 32 bytes of a-z, 0-9 and _.
#[derive(Drop)]
pub struct Name {
    room: [u8; 32],
    len: usize,
}

impl Model for Name {
    ghost use Rattle.std.specs.Prelude.{ℕ, List, take, ◌≤◌};
    ghost use Rattle.e3_types.specs.Text.{IsName};

    ghost Value = { List ℕ };

    ghost view = { λ a. take a.len a.room };

    ghost invariant = { λ a. (a.len ≤ 32) × IsName (take a.len a.room) };
}

fn is_letter(byte: u8) -> bool
    ensures { result ≡ is_letter byte }
{
    byte.is_ascii_lowercase() || byte.is_ascii_digit() || byte == b'_'
}

fn is_name(bytes: &[u8]) -> bool
    ensures { IsTrue result ↔ IsName bytes.now }
{
    !bytes.is_empty() && bytes.len() <= 32 && bytes.iter().all(|b| is_letter(*b))
}

impl Name {
    /// The name of these bytes: 1 to 32 of a-z, 0-9 and _. None exactly for other bytes.
    pub fn new(bytes: &[u8]) -> Option<Name>
        ensures some { IfSome result (λ name. (name ≡ bytes.now) × IsName bytes.now) }
        ensures none { IfNone result (¬ IsName bytes.now) }
    {
        if !is_name(bytes) {
            return None;
        }
        let mut room = [0; 32];
        room[..bytes.len()].copy_from_slice(bytes);
        Some(Name {
            room,
            len: bytes.len(),
        })
    }

    /// The bytes of the name.
    pub fn bytes(&self) -> &[u8]
        ensures { result.now ≡ self.now }
    {
        &self.room[..self.len]
    }

    /// An equal name.
    pub fn copy(&self) -> Name
        ensures { result ≡ self.now }
    {
        Name {
            room: self.room,
            len: self.len,
        }
    }

    /// The two names have the same bytes.
    #[tactic(auto, using(crate::proofs::Orders::pointwise_same))]
    pub fn is_same(&self, other: &Name) -> bool
        ensures { result ≡ same_numbers self.now other.now }
    {
        self.bytes() == other.bytes()
    }
}

impl PartialEq for Name {
    ghost eq = { pointwise nat_eq };

    ghost laws = { partial_equiv_from_equiv nat_list_eq_equiv };

    fn eq(&self, other: &Name) -> bool {
        self.bytes() == other.bytes()
    }
}

impl Eq for Name {
    ghost laws = { nat_list_eq_equiv };
}

impl PartialOrd for Name {
    ghost partial_cmp = { λ x y. Some (slice_cmp nat_cmp x y) };

    ghost laws = { texts_po };

    fn partial_cmp(&self, other: &Name) -> Option<Ordering> {
        Some(self.cmp(other))
    }
}

impl Ord for Name {
    ghost cmp = { slice_cmp nat_cmp };

    ghost total = { nat_list_cmp_total };

    ghost matches_partial_cmp = { Prim.search rules };

    ghost matches_eq = { texts_ties };

    fn cmp(&self, other: &Name) -> Ordering {
        self.bytes().cmp(other.bytes())
    }
}

/// Up to 256 bytes.
#[derive(Drop)]
pub struct Val {
    room: [u8; 256],
    len: usize,
}

impl Model for Val {
    ghost use Rattle.std.specs.Prelude.{ℕ, List, take, ◌≤◌};

    ghost Value = { List ℕ };

    ghost view = { λ a. take a.len a.room };

    ghost invariant = { λ a. a.len ≤ 256 };
}

impl Val {
    /// The value of these bytes. None exactly where there are more than 256.
    pub fn new(bytes: &[u8]) -> Option<Val>
        ensures some { IfSome result (λ val. val ≡ bytes.now) }
        ensures form { IsSome result ↔ (length bytes.now ≤ 256) }
    {
        if bytes.len() > 256 {
            return None;
        }
        let mut room = [0; 256];
        room[..bytes.len()].copy_from_slice(bytes);
        Some(Val {
            room,
            len: bytes.len(),
        })
    }

    /// The bytes of the value.
    pub fn bytes(&self) -> &[u8]
        ensures { result.now ≡ self.now }
    {
        &self.room[..self.len]
    }

    /// An equal value.
    pub fn copy(&self) -> Val
        ensures { result ≡ self.now }
    {
        Val {
            room: self.room,
            len: self.len,
        }
    }

    /// The two values have the same bytes.
    #[tactic(auto, using(crate::proofs::Orders::pointwise_same))]
    pub fn is_same(&self, other: &Val) -> bool
        ensures { result ≡ same_numbers self.now other.now }
    {
        self.bytes() == other.bytes()
    }
}

impl PartialEq for Val {
    ghost eq = { pointwise nat_eq };

    ghost laws = { partial_equiv_from_equiv nat_list_eq_equiv };

    fn eq(&self, other: &Val) -> bool {
        self.bytes() == other.bytes()
    }
}

impl Eq for Val {
    ghost laws = { nat_list_eq_equiv };
}

impl PartialOrd for Val {
    ghost partial_cmp = { λ x y. Some (slice_cmp nat_cmp x y) };

    ghost laws = { texts_po };

    fn partial_cmp(&self, other: &Val) -> Option<Ordering> {
        Some(self.cmp(other))
    }
}

impl Ord for Val {
    ghost cmp = { slice_cmp nat_cmp };

    ghost total = { nat_list_cmp_total };

    ghost matches_partial_cmp = { Prim.search rules };

    ghost matches_eq = { texts_ties };

    fn cmp(&self, other: &Val) -> Ordering {
        self.bytes().cmp(other.bytes())
    }
}
