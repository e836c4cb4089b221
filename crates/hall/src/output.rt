// Output in large pieces: letters are kept, and written when there is no room for more.
use answers::Text;
use arrayvec::ArrayVec;
use std::io;

#[derive(Drop)]
pub(crate) struct Output<'a, R> {
    rt: &'a R,
    kept: ArrayVec<u8, 65536>,
}

impl<'a, R: Print> Output<'a, R> {
    pub(crate) fn new(rt: &'a R) -> Output<'a, R> {
        Output {
            rt,
            kept: ArrayVec::new(),
        }
    }

    // Writes what is kept.
    pub(crate) fn flush(&mut self) -> io::Result<()> {
        self.rt.write_all(self.kept.as_slice())?;
        self.kept.clear();
        Ok(())
    }

    // A text has at most 256 letters, so there is room for it in what was flushed.
    pub(crate) fn put(&mut self, text: Text) -> io::Result<()> {
        let letters = &text.bytes[..text.length.min(256)];
        if self.kept.remaining_capacity() < letters.len() {
            self.flush()?;
        }
        let _ = self.kept.try_extend_from_slice(letters);
        Ok(())
    }
}
