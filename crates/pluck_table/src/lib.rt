// Tables of a pluck: T and the rule that it keeps (specs/, proofs/), and the loading of a lent one.
#![tactic(auto)]

ghost use Rattle.std.specs.Prelude.{◌≡◌};
ghost use Rattle.pluck_table.specs.Loading.{never_falls, loaded_table};

// Whether no entry is below the one before it. All are looked at, so that the loop has no branch.
fn never_falls(table: &[u32]) -> bool
    ensures { result ≡ never_falls table.now }
{
    let mut rises = true;
    for j in 1..table.len() {
        rises = rises & (table[j - 1] <= table[j]);
    }
    rises
}

// The place of the last entry of a lent table, or none where the table breaks a rule. The definition `loaded_number` tells the paper's
// number of each. Ruled out: the last entry not looked at; equal neighbours taken as a fall; 1024 entries accepted.
#[tactic(auto, using(crate::proofs::LoadingLaws::loading))]
pub fn load_table(table: &[u32]) -> Option<usize>
    ensures { result ≡ loaded_table table.now }
{
    if table.len() != 1025 {
        return None;
    }
    if table[0] != 0 {
        return None;
    }
    if table[1024] != 65536 {
        return None;
    }
    if never_falls(table) { Some(1024) } else { None }
}
