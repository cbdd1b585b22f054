ghost use Rattle.std.specs.Prelude.{◌≡◌};
ghost use Rattle.ad_value.specs.Names.{same_name};

/// Whether two names are equal without ASCII case, as names of attributes are (HTCondor manual,
/// "ClassAd syntax"). Computes in O(bytes of the shorter), without memory.
pub fn same_name(a: &str, b: &str) -> bool
    ensures { result ≡ same_name a.now b.now }
{
    a.eq_ignore_ascii_case(b)
}
