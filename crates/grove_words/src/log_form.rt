use crate::order::LogForm;
use std::str::FromStr;

/// A word that is no form of a log.
#[derive(Debug, Drop)]
pub struct NoLogForm;

impl FromStr for LogForm {
    type Err = NoLogForm;

    fn from_str(word: &str) -> Result<LogForm, NoLogForm> {
        match word {
            "text" => Ok(LogForm::Text),
            "json" => Ok(LogForm::Json),
            _ => Err(NoLogForm),
        }
    }
}
