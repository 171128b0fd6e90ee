//! Which rows are there again (RFC 1833 section 2.2.1, RPCBPROC_SET).
ghost use Rattle.std.specs.Prelude.{◌≡◌, [], ◌∷◌, codes, true, false};
ghost use Rattle.registry_rows.specs.Rows.{row_of};
ghost use Rattle.registry_callers.specs.From.{is_there};

/// A row is there again with its own address and owner alone.
pub fn is_there_with_address_and_owner()
    ensures again { let r = row_of 70000 1 (codes "tcp") (codes "0.0.0.0.2.3") (codes "7") in
        is_there (r ∷ []) (r ∷ []) ≡ true }
    ensures address { let r = row_of 70000 1 (codes "tcp") (codes "0.0.0.0.2.3") (codes "7") in
        let s = row_of 70000 1 (codes "tcp") (codes "0.0.0.0.2.4") (codes "7") in is_there (r ∷ []) (s ∷ []) ≡ false }
    ensures owner { let r = row_of 70000 1 (codes "tcp") (codes "0.0.0.0.2.3") (codes "7") in
        let s = row_of 70000 1 (codes "tcp") (codes "0.0.0.0.2.3") (codes "8") in is_there (r ∷ []) (s ∷ []) ≡ false }
{}
