// A message as it is read.

ghost use Rattle.std.specs.Prelude.{◌≡◌, ◌≤◌, length};
ghost use Rattle.second_reader.specs.Bounds.{Went, Answered};

use crate::{Reason, Refused, Seen, Values, fields};

// A message, where reading stands in it, and the values so far.
#[derive(Clone, Copy)]
pub struct Reader<'a> {
    pub bytes: &'a [u8],
    in_block: bool,
    at: usize,
    values: Values,
    ghost within: { at ≤ length bytes.now },
}

impl<'a> Reader<'a> {
    pub fn new(bytes: &'a [u8], in_block: bool) -> Self
        ensures { result.bytes.now ≡ bytes.now }
    {
        Reader {
            bytes,
            in_block,
            at: 0,
            values: Values::new(),
        }
    }

    pub fn number(&mut self, code: u8) -> Result<(), Refused>
        ensures { Went self.old.bytes.now self.new.bytes.now result }
    {
        let step = fields::number(self.bytes, self.at, code)?;
        self.at = step.at;
        self.values.push(step.value);
        Ok(())
    }

    fn text(&mut self) -> Result<(), Refused>
        ensures { Went self.old.bytes.now self.new.bytes.now result }
    {
        let step = fields::text(self.bytes, self.at)?;
        self.values.push(self.at as u64);
        self.values.push(step.value);
        self.at = step.at;
        Ok(())
    }

    fn sized(&mut self) -> Result<(), Refused>
        ensures { Went self.old.bytes.now self.new.bytes.now result }
    {
        let step = fields::sized(self.bytes, self.at)?;
        self.values.push(step.at as u64 - step.value);
        self.values.push(step.value);
        self.at = step.at;
        Ok(())
    }

    fn tuple(&mut self) -> Result<(), Refused>
        ensures { Went self.old.bytes.now self.new.bytes.now result }
    {
        let tuple = fields::read_tuple(self.bytes, self.at)?;
        self.values.push(self.at as u64);
        self.values.push(tuple.columns as u64);
        self.at = tuple.end;
        Ok(())
    }

    // Behind the letter `N`, whose value is not kept.
    fn new_tuple(&mut self) -> Result<(), Refused>
        ensures { Went self.old.bytes.now self.new.bytes.now result }
    {
        self.at = fields::number(self.bytes, self.at, b'N')?.at;
        self.tuple()
    }

    fn old_tuple(&mut self) -> Result<(), Refused>
        ensures { Went self.old.bytes.now self.new.bytes.now result }
    {
        self.number(b'K')?;
        self.tuple()
    }

    fn old_tuple_if_there(&mut self) -> Result<(), Refused>
        ensures { Went self.old.bytes.now self.new.bytes.now result }
    {
        if fields::number(self.bytes, self.at, b'K').is_ok() {
            return self.old_tuple();
        }
        self.values.push(0);
        self.values.push(0);
        self.values.push(0);
        Ok(())
    }

    // The start of fields that are repeated.
    fn repeated(&mut self, codes: &[u8], times: u64) -> Result<(), Refused>
        ensures { Went self.old.bytes.now self.new.bytes.now result }
    {
        let step = fields::repeated(self.bytes, self.at, codes, times)?;
        self.values.push(self.at as u64);
        self.at = step.at;
        Ok(())
    }

    fn xid(&mut self) -> Result<(), Refused>
        ensures { Went self.old.bytes.now self.new.bytes.now result }
    {
        if self.in_block {
            return self.number(b'i');
        }
        self.values.push(0);
        Ok(())
    }

    pub fn field(&mut self, code: u8) -> Result<(), Refused>
        ensures { Went self.old.bytes.now self.new.bytes.now result }
    {
        let values = self.values;
        match code {
            b'x' => self.xid(),
            b's' => self.text(),
            b'v' => self.sized(),
            b'N' => self.new_tuple(),
            b'K' => self.old_tuple(),
            b'U' => self.old_tuple_if_there(),
            b'C' => self.repeated(b"1sww", values.earlier(0)),
            b'R' => self.repeated(b"i", values.earlier(1)),
            _ => self.number(code),
        }
    }

    // Reading ends where the message does.
    pub fn finish(self) -> Result<Seen, Refused>
        ensures { Answered (length self.entry.bytes.now) result }
    {
        if self.at < self.bytes.len() {
            return Err(Reason::LeftOver.at(self.at));
        }
        Ok(Seen {
            length: self.at,
            values: self.values,
        })
    }
}
