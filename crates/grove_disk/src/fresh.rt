use grove_log::Seal;
use std::io;
use std::random::RandomSource;

/// A number for a new file, of the system's random bytes: no other file has it, as far as these are random. So no frame
/// of another file passes in this one.
pub fn fresh_number<R: RandomSource>(rt: &R) -> io::Result<Seal> {
    let mut bytes = [0; 32];
    rt.fill_bytes(&mut bytes)?;
    Ok(Seal { bytes })
}
