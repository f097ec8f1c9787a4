// Lists of entries by name.
ghost use Rattle.std.specs.Prelude.{IfSome, IfNone};
ghost use Rattle.tam_edge.specs.Entries.{NoneNamed, IsFirstNamed};

/// The place of the first entry of that name.
pub fn position_of<V>(entries: &[(String, V)], name: &str) -> Option<usize>
    ensures found { IfSome result (IsFirstNamed entries.now name.now) }
    ensures absent { IfNone result (NoneNamed entries.now name.now) }
{
    for (i, entry) in entries.iter().enumerate() {
        if entry.0.as_str() == name {
            return Some(i);
        }
    }
    None
}
