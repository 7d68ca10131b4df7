//! Breaks of the compatibility of two versions.

/// The reason for which a newer field fails to keep its older partner.
#[derive(Clone, Copy, PartialEq, Eq, Debug)]
pub enum FieldRule {
    /// Their values in the union differ, or only one is a member.
    Value,
    /// One is a slot, the other a group.
    Kind,
    /// Their types are not related. If both are of enums, in lists of the same depth, the older
    /// enumerants are not the first of the newer ones.
    Type,
    /// Their types are related, and their places differ.
    Place,
    /// Their types are related, and their defaults differ.
    Default,
}

/// A rule of compatible versions. Fields are given by their index among the fields of their node.
#[derive(Clone, Copy, PartialEq, Eq, Debug)]
pub enum Rule {
    /// One root is a group, the other is not.
    Roots,
    /// The newer data section has fewer words.
    Words,
    /// The newer pointer section has fewer pointers.
    Pointers,
    /// The older node has a union, and the newer has none at its place.
    Union,
    /// The older field has no partner after the partners of the fields before it: there is no
    /// partner, or the order differs.
    Missing {
        older: usize,
    },
    /// The newer field comes before the partner of the older field that is due there, and has the
    /// value of an older member, which a new field must not have. `due` is the index of the older
    /// field; if no field is due, it is past the last.
    Taken {
        due: usize,
        newer: usize,
    },
    /// The newer field is the partner of the older, and does not keep it.
    Field {
        older: usize,
        newer: usize,
        rule: FieldRule,
    },
}

/// A pair of nodes, structs or groups, that break a rule.
#[derive(Clone, Copy, PartialEq, Eq, Debug)]
pub struct Break {
    /// The id of the older node; 0 if the older set has no such struct or group.
    pub older: u64,
    /// The id of the newer node; 0 if the newer set has no such struct or group.
    pub newer: u64,
    /// The rule that they break.
    pub rule: Rule,
}

/// The fault of a newer field when an older one is due.
#[derive(Clone, Copy)]
pub(crate) enum Fault {
    /// It is not the partner of the field that is due, and may not be new.
    Taken,
    /// It is the partner, and does not keep it.
    Field(FieldRule),
    /// Both are groups, and these or groups in them break a rule.
    Inner(Break),
}
