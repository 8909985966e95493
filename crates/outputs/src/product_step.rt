// What a gate does to the columns, read from the table of their products: it XORs the product of its controls into its target.
ghost use Rattle.std.specs.Prelude.{◌≡◌, true, List, ℕ, ◌<◌, eqb, length, get_or};
ghost use Rattle.gate.specs.Gates.{target_of, lawful, gate_of};
ghost use Rattle.gate.specs.Inner.{firing, column_step};
ghost use Rattle.columns.specs.declared.Wanted.{Wanted};
ghost use Rattle.outputs.specs.Owed.{Controls};
ghost use Rattle.outputs.specs.products.Products.{table_of};

// The target's column after a gate.
pub fn next_column(table: &[u16], g: u8) -> u16
    requires table_len { length table.now ≡ 40 }
    requires g_bound { target_of g < 5 }
    ensures { (k : ℕ) (t : Wanted) (cs : List ℕ) → Controls k → lawful k 5 g ≡ true → length cs ≡ 5
        → table.now ≡ table_of k t cs → result ≡ get_or (column_step (gate_of g) cs) (target_of g) 0 }
{
    let w = usize::from(g / 32);
    table[1 << w] ^ table[usize::from(g % 32)]
}

// All columns after a gate.
pub fn step(table: &[u16], columns: [u16; 5], g: u8) -> [u16; 5]
    requires table_len { length table.now ≡ 40 }
    requires g_bound { target_of g < 5 }
    ensures { (k : ℕ) (t : Wanted) → Controls k → lawful k 5 g ≡ true → table.now ≡ table_of k t columns
        → result ≡ column_step (gate_of g) columns }
{
    let t = usize::from(g / 32);
    logic::with_cell(columns, t, next_column(table, g))
}

// Whether a gate is idle: in no row are its controls all 1, so it changes no column.
pub fn idle(table: &[u16], g: u8) -> bool
    requires { length table.now ≡ 40 }
    ensures { (k : ℕ) (t : Wanted) (cs : List ℕ) → Controls k → lawful k 5 g ≡ true → table.now ≡ table_of k t cs
        → result ≡ eqb (firing (gate_of g).kind cs) 0 }
{
    table[usize::from(g % 32)] == 0
}
