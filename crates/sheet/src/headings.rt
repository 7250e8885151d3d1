ghost use Rattle.std.specs.Prelude.{◌≡◌, ◌≢◌, ◌≤◌, ◌++◌, List, ℕ, IfSome, IfNone, length};
ghost use Rattle.std.specs.Option.{option_map};
ghost use Rattle.sheet.specs.Headings.{after_names, heading_of, most_bytes, names_of};
ghost use Rattle.sheet.specs.declared.headings.SheetOf.{SheetOf};

// A sheet has this many bytes at most, its names line among them.
pub const MOST_BYTES: usize = 60_000;

const MAPS_NAMES: &[u8] = b"party call a code number d e f\n";

const TRACES_NAMES: &[u8] = b"party call a severity hour d e f\n";

// What kind of data the lines of a sheet speak of.
#[derive(Clone, Copy, Debug, PartialEq, Eq)]
pub enum SheetOf {
    Maps,
    Traces,
}

// What the names line says that the sheet is of, and the sheet after that line. None for a sheet
// that is too long or begins otherwise.
pub fn heading(sheet: &[u8]) -> Option<(SheetOf, &[u8])>
    ensures value { option_map (λ h. (h.0, h.1.now)) result ≡ heading_of sheet.now }
    ensures found { IfSome result (λ h. sheet.now ≡ names_of h.0 ++ h.1.now) }
    ensures within { IfSome result (λ h. length sheet.now ≤ most_bytes) }
    ensures none { IfNone result (length sheet.now ≤ most_bytes → (kind : SheetOf) (lines : List ℕ) → sheet.now ≢ names_of kind ++ lines) }
{
    if sheet.len() > MOST_BYTES {
        return None;
    }
    if let Some(lines) = lines_after(sheet, MAPS_NAMES) {
        return Some((SheetOf::Maps, lines));
    }
    let lines = lines_after(sheet, TRACES_NAMES)?;
    Some((SheetOf::Traces, lines))
}

// The sheet after these names, if it begins with them.
fn lines_after<'a>(sheet: &'a [u8], names: &[u8]) -> Option<&'a [u8]>
    ensures value { option_map (λ lines. lines.now) result ≡ after_names names.now sheet.now }
    ensures found { IfSome result (λ lines. sheet.now ≡ names.now ++ lines.now) }
    ensures none { IfNone result ((lines : List ℕ) → sheet.now ≢ names.now ++ lines) }
{
    sheet.strip_prefix(names)
}
