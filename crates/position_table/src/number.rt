ghost use Rattle.std.specs.Prelude.{◌≡◌, ℕ, Bool, nat_le, ◌&&◌, if◌then◌else◌};
ghost use Rattle.std.specs.List.{list_all};
ghost use Rattle.position_table.specs.Positions.{is_digit, digits_value, largest_number, begins_well, number_of as number_said};

use mac_base::number_of;

/// The number that a field is, if it is one: decimal, at most 4,294,967,295, without needless zeros.
pub fn number(field: &[u8]) -> Option<u32>
    ensures { result ≡ number_said field.now }
{
    if begins_well(field) {
        value(field)
    } else {
        None
    }
}

/// Whether there is a digit, and no zero before another one.
fn begins_well(field: &[u8]) -> bool
    ensures { result ≡ begins_well field.now }
{
    match field {
        [] => false,
        [_] => true,
        [first, ..] => *first != b'0',
    }
}

/// What a row of digits comes to.
fn value(digits: &[u8]) -> Option<u32>
    ensures { result ≡ (if list_all is_digit digits.now && nat_le (digits_value digits.now) largest_number then Some (digits_value digits.now) else None) }
{
    u32::try_from(number_of(10, digits)?).ok()
}
