use crate::order::SyncEach;
use std::str::FromStr;

/// A word that doesn't say how often rounds are synced.
#[derive(Debug, Drop)]
pub struct NoSyncEach;

impl FromStr for SyncEach {
    type Err = NoSyncEach;

    fn from_str(word: &str) -> Result<SyncEach, NoSyncEach> {
        match word {
            "round" => Ok(SyncEach::Round),
            "second" => Ok(SyncEach::Second),
            _ => Err(NoSyncEach),
        }
    }
}
