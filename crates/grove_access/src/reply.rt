/// The reply of an access.
#[derive(Clone, Copy, Debug, Default, PartialEq, Eq)]
pub enum Reply {
    /// The record, or the sum or difference that was stored.
    Value(i64),
    /// The number is stored.
    #[default]
    Done,
    /// The sum or difference would leave `i64`; nothing is changed.
    Range,
    /// There is less in the record than is to be taken; nothing is changed.
    Short,
}
