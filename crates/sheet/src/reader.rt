ghost use Rattle.std.specs.Prelude.{◌≡◌, ◌↔◌, ◌+◌, ◌^◌, ◌<◌, List, ℕ, [], ◌∷◌, IfNone, IfSome, IsNone, length};
ghost use Rattle.sheet.specs.Bytes.{space_byte};
ghost use Rattle.sheet.specs.Fields.{IsField, joined, lines_ended, pieces_of};
ghost use Rattle.std.specs.List.{flat_map, join_with_byte};
ghost use Rattle.sheet.specs.Lines.{fields_of, first_line, line_text, lines_of, values_on};
ghost use Rattle.sheet.specs.declared.cuts.Ending.{Ending};

use crate::columns::Columns;
use crate::cuts::Cut;
use crate::lines::Line;

// A field, as a part of the sheet, and the number of the line on which it stands.
#[derive(Clone, Copy)]
pub struct Field<'a> {
    pub part: &'a [u8],
    pub line: usize,
}

// Goes along the lines of a sheet, counting them from 1.
#[derive(Drop)]
pub struct Reader<'a> {
    pub(crate) rest: &'a [u8],
    pub(crate) line: usize,
    // so every line to come has a number
    ghost countable: { line + length rest.now < 2 ^ 64 },
}

impl<'a> Reader<'a> {
    // A reader before the first of these lines, from which the names line has been taken off.
    pub fn new(lines: &'a [u8]) -> Reader<'a>
        ensures rest { result.rest.now ≡ lines.now }
        ensures line { result.line ≡ 1 }
    {
        Reader {
            rest: lines,
            line: 1,
        }
    }

    // The next field, up to the next space, line end or the end of the sheet.
    pub fn next_field(&mut self) -> Option<Field<'a>>
        ensures none { IsNone result ↔ (self.old.rest.now ≡ []) }
        ensures unchanged { IfNone result ((self.new.rest.now ≡ self.old.rest.now) × (self.new.line ≡ self.old.line)) }

        ensures field { IfSome result (λ field. (ending : Ending)
            × IsField self.old.rest.now field.part.now ending self.new.rest.now
            × (self.new.line ≡ self.old.line + lines_ended ending)) }
        ensures line { IfSome result (λ field. field.line ≡ self.old.line) }
        // No byte is lost when a text is taken as pieces.
        ensures whole { (text : List ℕ) → joined (pieces_of text) ≡ text }
    {
        if self.rest.is_empty() {
            return None;
        }
        let cut = Cut::first(self.rest);
        let line = self.line;
        self.rest = cut.after;
        self.line += cut.ending.lines();
        Some(Field {
            part: cut.part,
            line,
        })
    }

    // The next line, read field by field up to its end and no further.
    #[tactic(auto, using(crate::proofs::LinesOfTexts::nothing_ahead))]
    pub fn next_line(&mut self) -> Option<Line>
        ensures none { IsNone result ↔ (self.old.rest.now ≡ []) }
        ensures unchanged { IfNone result ((self.new.rest.now ≡ self.old.rest.now) × (self.new.line ≡ self.old.line)) }

        ensures values { IfSome result (λ line. line.values ≡ values_on (first_line self.old.rest.now)) }
        ensures left { IfSome result (λ line. lines_of self.old.rest.now ≡ first_line self.old.rest.now ∷ lines_of self.new.rest.now) }
        ensures number { IfSome result (λ line. line.number ≡ self.old.line) }
        ensures counted { IfSome result (λ line. self.new.line ≡ self.old.line + 1) }
        // No byte is lost when a text is taken as lines, or a line as fields.
        ensures whole { (text : List ℕ) → (flat_map line_text (lines_of text) ≡ text) × (join_with_byte space_byte (fields_of text) ≡ text) }
    {
        if self.rest.is_empty() {
            return None;
        }
        let number = self.line;
        let mut columns = Columns::new();
        while let Some(field) = self.next_field() {
            columns.take(field.part);
            if self.line != number {
                let values = columns.values();
                return Some(Line { number, values });
            }
        }
        self.line = number + 1;
        Some(Line {
            number,
            values: None,
        })
    }
}
