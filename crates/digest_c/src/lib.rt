// The digest for a C program, which digest_c_c exports: measure/digest.c measures it.
#![tactic(auto)]

ghost use Rattle.std.specs.Prelude.{◌≡◌};
ghost use Rattle.digest.specs.Sha256.{sha256};

pub fn chhutirok_digest(m: &[u8], out: &mut [u8; 32])
    ensures { out.new ≡ sha256 m.now }
{
    *out = digest::digest(m);
}
