// Reads the bytes of a file as u32 words; bytes after the last complete word are left out.
ghost use Rattle.layout.specs.Calls.FileWords.{FileWords};

use constants::number_of;

#[unsafe(no_mangle)]
pub extern "C" fn chordal_file_words(file: &[u8], out: &mut [u32]) -> u32
    ensures { FileWords file.now out.old out.new result }
{
    number_of(file_bytes::file_words(file, out))
}
