ghost use Rattle.std.specs.Prelude.{◌≡◌, ◌<◌, ◌^◌, length, map, Decides, MatchOption};
ghost use Rattle.grove_answer.specs.Outcomes.{DifferFirstAt};

use grove_access::Reply;

/// The first node whose record isn't the one that is said to stand, where the two are no more alike than that.
pub fn other_record(said: &[i64], records: &[i64]) -> Option<u32>
    requires { length records.now < 2 ^ 32 }
    ensures { MatchOption result (said.now ≡ records.now) (DifferFirstAt said.now records.now) }
{
    for at in 0..records.len() {
        if at == said.len() || said[at] != records[at] {
            return Some(at as u32);
        }
    }
    if said.len() > records.len() {
        return Some(records.len() as u32);
    }
    None
}

/// The first job whose replies aren't those that are said to stand.
pub fn other_replies(said: &[Vec<Reply>], replies: &[&[Reply]]) -> Option<u32>
    requires { length replies.now < 2 ^ 32 }
    ensures { MatchOption result (map (λ list. list.items) said.now ≡ map (λ list. list.now) replies.now)
        (DifferFirstAt (map (λ list. list.items) said.now) (map (λ list. list.now) replies.now)) }
{
    for at in 0..replies.len() {
        if at == said.len() || !are_same(&said[at], replies[at]) {
            return Some(at as u32);
        }
    }
    if said.len() > replies.len() {
        return Some(replies.len() as u32);
    }
    None
}

fn are_same(said: &[Reply], replies: &[Reply]) -> bool
    ensures { Decides result (said.now ≡ replies.now) }
{
    said == replies
}
