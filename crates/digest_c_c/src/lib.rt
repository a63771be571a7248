// The digest for a C program: the export of the function of its name in the crate digest_c. measure/digest.c measures it.
#![tactic(auto)]

ghost use Rattle.std.specs.Prelude.{◌≡◌};
ghost use Rattle.digest.specs.Sha256.{sha256};

#[unsafe(no_mangle)]
pub extern "C" fn chhutirok_digest(m: &[u8], out: &mut [u8; 32])
    ensures { out.new ≡ sha256 m.now }
{
    digest_c::chhutirok_digest(m, out)
}
