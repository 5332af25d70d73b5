ghost use Rattle.std.specs.Prelude.{ℕ, List, [], ◌∷◌, ◌++◌, length};
ghost use Rattle.httparse.specs.Spans.{IsWithin, span_bytes};
ghost use Rattle.head_fields.specs.Finding.{IsFound};

use httparse::spans::Span;

/// How often a field of some name was found, and where its value stands if it was once.
#[derive(Clone, Copy, Debug, PartialEq, Eq)]
pub enum Found {
    Absent,
    Once(Span),
    Repeated,
}

impl Found {
    pub fn once_more(self, value: Span) -> Found
        ensures { (buf : List ℕ) (values : List (List ℕ)) → IsFound buf values self → IsWithin (length buf) value
            → IsFound buf (values ++ span_bytes buf value ∷ []) result }
    {
        match self {
            Found::Absent => Found::Once(value),
            _ => Found::Repeated,
        }
    }
}
