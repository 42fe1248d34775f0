// A text read field by field, without copying it: a tab, a newline or the text's end ends a field.
#![tactic(auto)]

ghost use Rattle.std.specs.Prelude.{◌≡◌, position};
ghost use Rattle.fields.specs.Fields.{ends, field_at};

// Where a field begins and ends, and the place behind what ended it.
#[derive(Clone, Copy)]
pub struct Field {
    pub from: usize,
    pub to: usize,
    pub next: usize,
}

// A lent text, and a place in it.
#[derive(Clone, Copy)]
pub struct Reader<'a> {
    pub text: &'a [u8],
    pub at: usize,
}

// Where the first tab or newline of a text stands.
fn ending(text: &[u8]) -> Option<usize>
    ensures { result ≡ position ends text.now }
{
    text.iter().position(|b| *b == b'\t' || *b == b'\n')
}

// The field of a text at a place; a place past the end of the text is its end.
pub fn field_at(text: &[u8], at: usize) -> Field
    ensures { result ≡ field_at text.now at }
{
    let from = at.min(text.len());
    match ending(&text[from..]) {
        Some(n) => Field {
            from,
            to: from + n,
            next: from + n + 1,
        },
        None => Field {
            from,
            to: text.len(),
            next: text.len(),
        },
    }
}

impl<'a> Reader<'a> {
    // A reader at the start of a text.
    pub fn new(text: &'a [u8]) -> Self
        ensures { (result.text ≡ text.entry) × (result.at ≡ 0) }
    {
        Reader { text, at: 0 }
    }

    // The field at the reader's place, which the reader steps past.
    pub fn next_field(&mut self) -> Field
        ensures { (result ≡ field_at self.old.text.now self.old.at) × (self.new.text ≡ self.old.text) × (self.new.at ≡ result.next) }
    {
        let f = field_at(self.text, self.at);
        self.at = f.next;
        f
    }
}

// The field that a reader at a place of a text gives next.
pub fn field_from(text: &[u8], at: usize) -> Field
    ensures { result ≡ field_at text.now at }
{
    let mut reader = Reader { text, at };
    reader.next_field()
}
