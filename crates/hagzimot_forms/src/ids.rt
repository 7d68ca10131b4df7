//! Ids of schema files: numbers, or texts of their digits.

use serde::Deserialize;

/// The JSON of an id.
#[derive(Drop, Deserialize)]
#[serde(untagged)]
pub(crate) enum AnyId {
    Number(u64),
    Digits(String),
}

/// An id that was checked.
#[derive(Clone, Copy, Debug, Drop, Deserialize)]
#[serde(try_from = "AnyId")]
pub(crate) struct Id;

impl TryFrom<AnyId> for Id {
    type Error = &'static str;

    fn try_from(id: AnyId) -> Result<Id, &'static str> {
        match id {
            AnyId::Number(_) => Ok(Id),
            AnyId::Digits(digits) => match digits.parse::<u64>() {
                Ok(_) => Ok(Id),
                Err(_) => Err("an id is a number of 64 bits"),
            },
        }
    }
}
