ghost use Rattle.std.specs.Prelude.{◌≡◌, ◌≤◌, length, IfOk, Err, IfSome, IsNone, ℕ, Option, codes, string_bytes};
ghost use Rattle.std.specs.Option.{option_to_list, option_map};
ghost use Rattle.grove_page.specs.Queries.{values_beside, IsRound, ReadsAs, IsRead, NodesQuery as Asked};
ghost use Rattle.form_urlencoded.specs.Form.{raw_pairs};
ghost use Rattle.grove_page.specs.declared.query.QueryFault.TheVariants.{Bad};

use form_urlencoded::parse;
use std::alloc::{AllocError, Global};
use std::marker::Model;

/// What a query asks of the nodes.
#[derive(Debug, Drop)]
pub(crate) struct NodesQuery {
    /// The round that a later one is waited for.
    pub after: Option<u64>,
    /// The path of the node that is told of, with those below it.
    pub below: Option<String>,
    /// Any word, by which hints are asked for.
    pub hints: Option<String>,
}

impl Model for NodesQuery {
    ghost use Rattle.std.specs.Prelude.{string_bytes};
    ghost use Rattle.std.specs.Option.{option_map};
    ghost use Rattle.grove_page.specs.Queries.{NodesQuery};

    ghost Value = { NodesQuery };

    ghost view = { λ query. record {
      after = query.after;
      below = option_map string_bytes query.below;
      hints = option_map string_bytes query.hints;
    } };
}

/// Why a query isn't read.
#[derive(Clone, Copy, Debug)]
pub(crate) enum QueryFault {
    /// It asks nothing that can be answered.
    Bad,
    /// A growth was refused.
    Memory,
}

impl From<AllocError> for QueryFault {
    ghost use Rattle.std.specs.Prelude.{◌≡◌};
    ghost use Rattle.grove_page.specs.declared.query.QueryFault.TheVariants.{Memory};

    ghost from_gives = { λ _ fault. fault ≡ Memory };

    fn from(_error: AllocError) -> QueryFault {
        QueryFault::Memory
    }
}

/// What the query asks of the nodes. Parameters with other names are ignored.
pub(crate) fn read_query(alloc: Global, query: &[u8]) -> Result<NodesQuery, QueryFault>
    ensures asked { IfOk result (IsRead query.now) }
    ensures bad { result ≡ Err Bad → (asked : Asked) → IsRead query.now asked → ⊥ }
{
    Ok(NodesQuery {
        after: read_round(alloc, query)?,
        below: value_of(alloc, query, "below")?,
        hints: value_of(alloc, query, "hints")?,
    })
}

fn read_round(alloc: Global, query: &[u8]) -> Result<Option<u64>, QueryFault>
    ensures asked { IfOk result (ReadsAs IsRound (values_beside (codes "after") (raw_pairs query.now))) }
    ensures bad { result ≡ Err Bad → (round : Option ℕ)
        → ReadsAs IsRound (values_beside (codes "after") (raw_pairs query.now)) round → ⊥ }
{
    match value_of(alloc, query, "after")? {
        Some(text) => Ok(Some(round_in(&text).ok_or(QueryFault::Bad)?)),
        None => Ok(None),
    }
}

/// The value beside this name, if there is one.
fn value_of(alloc: Global, query: &[u8], name: &str) -> Result<Option<String>, QueryFault>
    ensures one { IfOk result (λ value. values_beside name.now (raw_pairs query.now)
        ≡ option_to_list (option_map string_bytes value)) }
    ensures several { result ≡ Err Bad → 2 ≤ length (values_beside name.now (raw_pairs query.now)) }
{
    let mut found = None;
    for pair in parse(alloc, query) {
        let (other, value) = pair?;
        if &*other == name {
            if found.is_some() {
                return Err(QueryFault::Bad);
            }
            found = Some(value.into_owned(alloc)?);
        }
    }
    Ok(found)
}

/// The whole number that the text is.
fn round_in(text: &str) -> Option<u64>
    ensures some { IfSome result (IsRound text.now) }
    ensures none { IsNone result → (round : ℕ) → IsRound text.now round → ⊥ }
{
    if text.as_bytes().first() == Some(&b'+') {
        return None;
    }
    text.parse().ok()
}
