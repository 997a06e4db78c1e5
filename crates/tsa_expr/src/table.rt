//! What stands beside a text in a table.
ghost use Rattle.std.specs.Prelude.{◌≡◌};
ghost use Rattle.std.specs.List.{find};
ghost use Rattle.std.specs.Option.{option_copied};
ghost use Rattle.std.specs.Str.{bytes_eq};
ghost use Rattle.tsa_tree.specs.tokens.Signs.{listed};

/// What stands beside a text, where it is listed.
#[tactic(auto, using(crate::proofs::ListedRows::found))]
pub fn look_up<const N: usize, A: Copy>(text: &[u8], rows: &[([u8; N], A)]) -> Option<A>
    ensures { result ≡ listed rows.now text.now }
{
    match row_of(text, rows) {
        Some(row) => Some(row.1),
        None => None,
    }
}

/// The first row that begins with a text.
fn row_of<'a, const N: usize, A>(text: &[u8], rows: &'a [([u8; N], A)]) -> Option<&'a ([u8; N], A)>
    ensures { option_copied result ≡ find (λ row. bytes_eq text.now row.0) rows.now }
{
    rows.iter().find(
        |row| -> bool
            ensures { result ≡ bytes_eq text.entry.now row.now.now.0 }
        { text == row.0.as_slice() },
    )
}
