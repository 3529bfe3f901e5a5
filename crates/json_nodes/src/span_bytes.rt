ghost use Rattle.json_nodes.specs.Texts.{between};
ghost use Rattle.std.specs.Prelude.{◌≡◌};

/// The bytes from one place to another, as far as there are such.
pub fn part(bytes: &[u8], from: usize, to: usize) -> &[u8]
    ensures { result.now ≡ between from to bytes.now }
{
    let end = if to < bytes.len() { to } else { bytes.len() };
    if from < end { &bytes[from..end] } else { &[] }
}
