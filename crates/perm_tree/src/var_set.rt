//! Sets of variables, which are numbers from 0 to 255.
ghost use Rattle.std.specs.Prelude.{◌≡◌, ◌↔◌, IsTrue};
ghost use Rattle.perm_tree.specs.Vars.{just, none, plus, minus, meet, IsWithin};
ghost use Rattle.perm_tree.specs.VarSets.{member};

#[derive(Clone, Copy, Debug)]
pub struct VarSet {
    first: u64,
    second: u64,
    third: u64,
    fourth: u64,
}

impl VarSet {
    pub fn new() -> VarSet
        ensures { member result ≡ none }
    {
        VarSet {
            first: 0,
            second: 0,
            third: 0,
            fourth: 0,
        }
    }

    pub fn just(x: u8) -> VarSet
        ensures { member result ≡ just x }
    {
        let bit = 1u64 << (x % 64);
        match x / 64 {
            0 => VarSet {
                first: bit,
                second: 0,
                third: 0,
                fourth: 0,
            },
            1 => VarSet {
                first: 0,
                second: bit,
                third: 0,
                fourth: 0,
            },
            2 => VarSet {
                first: 0,
                second: 0,
                third: bit,
                fourth: 0,
            },
            _ => VarSet {
                first: 0,
                second: 0,
                third: 0,
                fourth: bit,
            },
        }
    }

    pub fn contains(self, x: u8) -> bool
        ensures { result ≡ member self x }
    {
        let word = match x / 64 {
            0 => self.first,
            1 => self.second,
            2 => self.third,
            _ => self.fourth,
        };
        (word >> (x % 64)) & 1 == 1
    }

    pub fn union(self, other: VarSet) -> VarSet
        ensures { member result ≡ plus (member self) (member other) }
    {
        VarSet {
            first: self.first | other.first,
            second: self.second | other.second,
            third: self.third | other.third,
            fourth: self.fourth | other.fourth,
        }
    }

    pub fn difference(self, other: VarSet) -> VarSet
        ensures { member result ≡ minus (member self) (member other) }
    {
        VarSet {
            first: self.first & !other.first,
            second: self.second & !other.second,
            third: self.third & !other.third,
            fourth: self.fourth & !other.fourth,
        }
    }

    pub fn intersection(self, other: VarSet) -> VarSet
        ensures { member result ≡ meet (member self) (member other) }
    {
        VarSet {
            first: self.first & other.first,
            second: self.second & other.second,
            third: self.third & other.third,
            fourth: self.fourth & other.fourth,
        }
    }

    pub fn insert(self, x: u8) -> VarSet
        ensures { member result ≡ plus (member self) (just x) }
    {
        self.union(VarSet::just(x))
    }

    pub fn remove(self, x: u8) -> VarSet
        ensures { member result ≡ minus (member self) (just x) }
    {
        self.difference(VarSet::just(x))
    }

    pub fn is_empty(self) -> bool
        ensures { IsTrue result ↔ (member self ≡ none) }
    {
        self.same(VarSet::new())
    }

    pub fn is_subset(self, other: VarSet) -> bool
        ensures { IsTrue result ↔ IsWithin (member self) (member other) }
    {
        self.difference(other).is_empty()
    }

    pub fn same(self, other: VarSet) -> bool
        ensures { IsTrue result ↔ (member self ≡ member other) }
    {
        if self.first != other.first {
            return false;
        }
        if self.second != other.second {
            return false;
        }
        if self.third != other.third {
            return false;
        }
        self.fourth == other.fourth
    }
}
