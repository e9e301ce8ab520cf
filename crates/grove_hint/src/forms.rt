//! The forms of what stands in documents and requests: what each has in it, and what each name stands for.
use serde_json::Value;

/// What has to stand somewhere.
#[derive(Clone, Copy)]
pub(crate) enum Form {
    Version,
    Parent,
    Text,
    Path,
    Weight,
    Short,
    Signed,
    Amount,
    Length,
    Reply,
    Array,
    Lists,
    Access,
    Step,
    Event,
    Document,
    Check,
    Row,
    FlowRow,
    Job,
    Standing,
}

/// The name of a member or an item, and what has to stand there.
type Named = (&'static str, Form);

static GET: [Named; 2] = [("path", Form::Path), ("length", Form::Length)];

static CHANGE: [Named; 3] = [
    ("path", Form::Path),
    ("number", Form::Signed),
    ("length", Form::Length),
];

static DOCUMENT: [Named; 9] = [
    ("version", Form::Version),
    ("nodes", Form::Array),
    ("list", Form::Array),
    ("lists", Form::Lists),
    ("plan", Form::Array),
    ("flow", Form::Array),
    ("jobs", Form::Array),
    ("events", Form::Array),
    ("standing", Form::Standing),
];

static CHECK: [Named; 4] = [
    ("version", Form::Version),
    ("list", Form::Array),
    ("plan", Form::Array),
    ("flow", Form::Array),
];

static ROW: [Named; 4] = [
    ("parent", Form::Parent),
    ("name", Form::Text),
    ("weight", Form::Weight),
    ("value", Form::Signed),
];

static FLOW_ROW: [Named; 6] = [
    ("node", Form::Text),
    ("above", Form::Amount),
    ("held", Form::Amount),
    ("first", Form::Amount),
    ("last", Form::Amount),
    ("own", Form::Amount),
];

/// May the member or item be absent?
pub(crate) fn may_lack(name: &str) -> bool {
    matches!(name, "version" | "value" | "length")
}

impl Form {
    /// Its members, or its items after the first word.
    pub(crate) fn parts(self, word: &str) -> &'static [Named] {
        match (self, word) {
            (Form::Access, "get") => &GET,
            (Form::Access, _) => &CHANGE,
            (Form::Step, "access") => &[("access", Form::Short)],
            (Form::Step, _) => &[("path", Form::Path)],
            (Form::Event, _) => &[("job", Form::Short)],
            (Form::Document, _) => &DOCUMENT,
            (Form::Check, _) => &CHECK,
            (Form::Row, _) => &ROW,
            (Form::FlowRow, _) => &FLOW_ROW,
            (Form::Job, _) => &[("list", Form::Array), ("plan", Form::Array)],
            (Form::Standing, _) => &[("records", Form::Array), ("replies", Form::Array)],
            _ => &[],
        }
    }

    /// Has it a member of this name?
    pub(crate) fn has_member(self, name: &str) -> bool {
        for (known, _) in self.parts("") {
            if *known == name {
                return true;
            }
        }
        false
    }

    /// What the first word of an array is, how its words are introduced, and the words.
    pub(crate) fn words(self) -> (&'static str, &'static str, &'static [&'static str]) {
        match self {
            Form::Access => ("operation", "the four are", &["get", "set", "add", "take"]),
            Form::Step => ("step", "steps are", &["lock", "access", "unlock"]),
            _ => ("event", "events are", &["take", "mark"]),
        }
    }

    /// Is the value of this kind? What stands in it isn't looked at.
    pub(crate) fn is_kind_of(self, value: &Value) -> bool {
        let is_short = matches!(value.as_u64(), Some(0..=4_294_967_295));
        match self {
            Form::Version => matches!(value.as_u64(), Some(1 | 2)),
            Form::Parent => value.is_null() || is_short,
            Form::Weight | Form::Short => is_short,
            Form::Signed => value.is_i64(),
            Form::Amount | Form::Length => value.is_u64(),
            Form::Text | Form::Path => value.is_string(),
            Form::Reply => matches!(value.as_str(), Some("ok" | "range" | "short"))
                || value.is_i64(),
            Form::Array | Form::Lists => value.is_array(),
            Form::Access => length_of(value) > 0,
            Form::Step | Form::Event => length_of(value) == 2,
            _ => value.is_object(),
        }
    }

    /// What it has to be. The range may be smaller than that of the form: a weight of 0 is refused by a later rule.
    pub(crate) fn wanted(self) -> &'static str {
        match self {
            Form::Version => "1 or 2",
            Form::Parent => "null or the number of an earlier row",
            Form::Text => "a string",
            Form::Path => r#"a string, as "/a""#,
            Form::Weight | Form::Length => "a whole number from 1 to 1000",
            Form::Short => "a whole number from 0 to 4294967295",
            Form::Signed => "a whole number from -9223372036854775808 to 9223372036854775807",
            Form::Amount => "a whole number from 0 to 1099511627776",
            Form::Reply => {
                r#""ok", "range", "short" or a whole number from -9223372036854775808 to 9223372036854775807"#
            }
            Form::Array => "an array",
            Form::Lists => "an array of lists",
            Form::Access => r#"an access, as ["get","/a"] or ["add","/a",1]"#,
            Form::Step => r#"a step, as ["lock","/a"], ["access",0] or ["unlock","/a"]"#,
            Form::Event => r#"an event, as ["take",0] or ["mark",0]"#,
            Form::Document => r#"an object, as {"nodes":[..],"list":[..]}"#,
            Form::Check => r#"an object, as {"list":[..],"plan":[..],"flow":[..]}"#,
            Form::Row => r#"a row, as {"parent":0,"name":"a","weight":1}"#,
            Form::FlowRow => "an object with a node and its five amounts",
            Form::Job => r#"a job, as {"list":[],"plan":[]}"#,
            Form::Standing => r#"an object, as {"records":[],"replies":[]}"#,
        }
    }
}

/// The text that stands there; an empty one where there is none.
pub(crate) fn text_of(value: Option<&Value>) -> &str {
    match value {
        Some(Value::String(text)) => text,
        _ => "",
    }
}

/// The number that stands there, if it is one from 0 on.
pub(crate) fn number_of(value: Option<&Value>) -> Option<u64> {
    value?.as_u64()
}

/// The items, where the value is an array.
pub(crate) fn items_of(value: Option<&Value>) -> &[Value] {
    match value {
        Some(Value::Array(items)) => items,
        _ => &[],
    }
}

/// The number of items, where the value is an array.
pub(crate) fn length_of(value: &Value) -> usize {
    items_of(Some(value)).len()
}
