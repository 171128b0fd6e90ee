//! How addresses are told to a caller who came to a host (RFC 5665 section 5.2.3.3).
ghost use Rattle.std.specs.Prelude.{◌≡◌, [], ◌∷◌, codes, Some, None};
ghost use Rattle.registry_callers.specs.Addresses.{told};

/// A registered address at 0.0.0.0 is told at the host that was called, with its port. One at another host, and a text
/// that is no address over IPv4, are told as they are.
pub fn tells_the_called_host()
    ensures anywhere { told (Some (10 ∷ 0 ∷ 0 ∷ 7 ∷ [])) (codes "0.0.0.0.2.3") ≡ codes "10.0.0.7.2.3" }
    ensures elsewhere { told (Some (10 ∷ 0 ∷ 0 ∷ 7 ∷ [])) (codes "192.0.2.9.2.3") ≡ codes "192.0.2.9.2.3" }
    ensures other { told (Some (10 ∷ 0 ∷ 0 ∷ 7 ∷ [])) (codes "::.2.3") ≡ codes "::.2.3" }
{}

/// Where the host that was called is not known, each is told as it is.
pub fn tells_what_is_registered()
    ensures { told None (codes "0.0.0.0.2.3") ≡ codes "0.0.0.0.2.3" }
{}
