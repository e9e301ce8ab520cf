use grove_gauge::Seconds;
use grove_words::LogForm;
use jiff::Timestamp;
use std::fmt;
use std::net::SocketAddr;

/// Writes the fields of a line of the log, each with its name.
#[derive(Drop)]
pub struct Fields<'a, W: fmt::Write> {
    f: &'a mut fmt::Formatter<W>,
    form: LogForm,
    is_first: bool,
}

impl<'a, W: fmt::Write> Fields<'a, W> {
    /// Begins a line.
    pub fn begin(f: &'a mut fmt::Formatter<W>, form: LogForm) -> Result<Fields<'a, W>, fmt::Error> {
        if let LogForm::Json = form {
            f.write_str("{")?;
        }
        Ok(Fields {
            f,
            form,
            is_first: true,
        })
    }

    pub fn end(self) -> fmt::Result {
        match self.form {
            LogForm::Text => Ok(()),
            LogForm::Json => self.f.write_str("}"),
        }
    }

    pub fn number(&mut self, name: &str, value: u64) -> fmt::Result {
        self.name(name)?;
        write!(self.f, "{value}")
    }

    /// The number, if there is one.
    pub fn optional_number(&mut self, name: &str, value: Option<u64>) -> fmt::Result {
        match value {
            Some(value) => self.number(name, value),
            None => Ok(()),
        }
    }

    pub fn seconds(&mut self, name: &str, value: Seconds) -> fmt::Result {
        self.name(name)?;
        write!(self.f, "{value}")
    }

    /// A text, in quotation marks if it isn't a single word.
    pub fn text(&mut self, name: &str, value: &str) -> fmt::Result {
        self.name(name)?;
        match self.form {
            LogForm::Text if is_word(value) => self.f.write_str(value),
            LogForm::Text | LogForm::Json => write!(self.f, "{}", Quoted(value)),
        }
    }

    /// The text, if there is one.
    pub fn optional_text(&mut self, name: &str, value: Option<&str>) -> fmt::Result {
        match value {
            Some(value) => self.text(name, value),
            None => Ok(()),
        }
    }

    pub fn address(&mut self, name: &str, value: SocketAddr) -> fmt::Result {
        self.name(name)?;
        match self.form {
            LogForm::Text => write!(self.f, "{value}"),
            LogForm::Json => write!(self.f, "\"{value}\""),
        }
    }

    pub fn time(&mut self, name: &str, value: Timestamp) -> fmt::Result {
        self.name(name)?;
        match self.form {
            LogForm::Text => write!(self.f, "{value:.3}"),
            LogForm::Json => write!(self.f, "\"{value:.3}\""),
        }
    }

    /// The name of the next field.
    fn name(&mut self, name: &str) -> fmt::Result {
        let is_first = self.is_first;
        self.is_first = false;
        match self.form {
            LogForm::Text if is_first => write!(self.f, "{name}="),
            LogForm::Text => write!(self.f, " {name}="),
            LogForm::Json if is_first => write!(self.f, "\"{name}\":"),
            LogForm::Json => write!(self.f, ",\"{name}\":"),
        }
    }
}

/// A text as JSON writes it.
#[derive(Clone, Copy)]
struct Quoted<'t>(&'t str);

impl fmt::Display for Quoted<'_> {
    fn fmt<W: fmt::Write>(&self, f: &mut fmt::Formatter<W>) -> fmt::Result {
        f.write_str("\"")?;
        for letter in self.0.chars() {
            match letter {
                '"' | '\\' => write!(f, "\\{letter}")?,
                '\0'..='\u{1f}' => write!(f, "\\u{:04x}", u32::from(letter))?,
                _ => write!(f, "{letter}")?,
            }
        }
        f.write_str("\"")
    }
}

/// Has it letters, digits and hyphens alone?
fn is_word(text: &str) -> bool {
    !text.is_empty()
        && text
            .bytes()
            .all(|byte| byte.is_ascii_alphanumeric() || byte == b'-')
}
