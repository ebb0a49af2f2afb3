// Names of tables.
ghost use Rattle.std.specs.Prelude.{◌≡◌};
ghost use Rattle.std.specs.List.{list_all};
ghost use Rattle.row_model.specs.Names.{is_name_byte, is_table_name};

/// Whether `name` may name a table: a letter from a to z, then at most 63 of a to z, 0 to 9 and `_`.
pub fn is_table_name(name: &[u8]) -> bool
    ensures { result ≡ is_table_name name.now }
{
    match name {
        [] => false,
        [first, rest @ ..] => {
            first.is_ascii_lowercase() && rest.len() <= 63 && has_name_bytes_alone(rest)
        }
    }
}

fn has_name_bytes_alone(bytes: &[u8]) -> bool
    ensures { result ≡ list_all is_name_byte bytes.now }
{
    bytes.iter().all(|byte| is_name_byte(*byte))
}

fn is_name_byte(byte: u8) -> bool
    ensures { result ≡ is_name_byte byte }
{
    byte.is_ascii_lowercase() || byte.is_ascii_digit() || byte == b'_'
}
