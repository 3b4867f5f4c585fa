ghost use Rattle.std.specs.Prelude.{◌≡◌};
ghost use Rattle.rules.specs.Rows.{is_blank as blank_by_rule};

/// Whether a row is blank: all its bits are ones.
#[tactic(auto, unfolding(crate::specs::Rows::is_blank, crate::specs::Rows::blank_row))]
pub fn is_blank(row: &[u8; 32]) -> bool
    ensures { result ≡ blank_by_rule row.now }
{
    *row == [0xFF; 32]
}
