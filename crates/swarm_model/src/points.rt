ghost use Rattle.std.specs.Prelude.{◌≡◌};
ghost use Rattle.swarm_model.specs.Points.{is_ahead};

/// Whether the caller has seen a longer log than one of this length.
pub fn is_ahead(length: u64, after: Option<u64>) -> bool
    ensures { result ≡ is_ahead length after }
{
    match after {
        None => false,
        Some(seen) => length < seen,
    }
}
