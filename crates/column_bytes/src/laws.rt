// Laws of the bytes of every column.
ghost use Rattle.std.specs.Prelude.{◌≡◌, ℕ, ◌<◌, ◌≤◌, List, length, Option};
ghost use Rattle.row_model.specs.declared.rows.Value.{Value};
ghost use Rattle.column_bytes.specs.Column.{HasCells};

/// No-op; states that bytes mean at most one list of cells, and that it has 1 to 65,536 of them, as the column says.
pub fn one_reading()
    ensures one { (bytes : List ℕ) (n m : ℕ) (a b : List (Option Value))
        → HasCells bytes n a → HasCells bytes m b → a ≡ b }
    ensures count { (bytes : List ℕ) (n : ℕ) (cells : List (Option Value)) → HasCells bytes n cells → length cells ≡ n }
    ensures some { (bytes : List ℕ) (n : ℕ) (cells : List (Option Value)) → HasCells bytes n cells → 0 < n }
    ensures few { (bytes : List ℕ) (n : ℕ) (cells : List (Option Value)) → HasCells bytes n cells → n ≤ 65536 }
{}
