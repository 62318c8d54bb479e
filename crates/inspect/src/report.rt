//! What is printed for each line of the input.

use crate::amount::Amount;
use crate::time::TimeOfDay;
use commands::opening::UnitName;
use indication::entry::Entry;
use indication::header::{Header, Kind, TariffControl};
use indication::value::Indication;
use lines::hexadecimal::decode;
use lines::line::{LIMIT, MOST_BYTES};
use std::io;
use tariffs::tariff::Tariff;
use units::admission::read_for;
use units::unit::Bounded;

/// Prints what indications say, read for a unit with that name.
#[derive(Drop)]
pub struct Report<'a, R, U> {
    pub rt: &'a R,
    pub unit: U,
    pub name: UnitName,
}

impl<R: Print, U: Bounded> Report<'_, R, U> {
    /// Prints what a line says; `None` is a line that is too long.
    pub(crate) fn print_line(&self, number: u64, line: Option<&[u8]>) -> io::Result<()> {
        print!(self.rt; "line {number}: ")?;
        let Some(text) = line else {
            return println!(self.rt; "more than {LIMIT} characters");
        };
        // room that is lent to the decoder
        let mut bytes = [0u8; MOST_BYTES];
        match decode(text, &mut bytes) {
            Ok(count) => self.print_bytes(&bytes[0..count]),
            Err(fault) => println!(self.rt; "{fault}"),
        }
    }

    fn print_bytes(&self, bytes: &[u8]) -> io::Result<()> {
        match read_for(bytes, taken_kind(bytes), &self.unit) {
            Ok(reader) => {
                let indication = reader.indication();
                self.print_header(&indication.header, bytes.len())?;
                self.print_tariffs(&indication)?;
                self.print_rewritten(&indication, bytes)
            }
            Err(fault) => println!(self.rt; "{fault}"),
        }
    }

    fn print_header(&self, header: &Header, length: usize) -> io::Result<()> {
        let Header {
            kind,
            mark,
            network,
            reference,
            ..
        } = header;
        println!(self.rt; "{kind} indication of {length} bytes")?;
        println!(self.rt; "  network {network}, reference ID {reference}, unit mark {mark}")
    }

    fn print_tariffs(&self, indication: &Indication) -> io::Result<()> {
        let header = indication.header;
        let current = indication.current.as_slice();
        match header.kind {
            Kind::AddOn => self.print_entries("  ", current),
            Kind::Tariff => {
                println!(self.rt; "  change {}", header.change)?;
                self.print_tariff("current", None, header.current_control, current)?;
                let start = TimeOfDay::after_quarters(header.quarter);
                let next = indication.next.as_slice();
                self.print_tariff("next", Some(start), header.next_control, next)
            }
        }
    }

    // A tariff by its name, with the time at which it takes over.
    fn print_tariff(
        &self,
        name: &str,
        start: Option<TimeOfDay>,
        control: TariffControl,
        entries: &[Entry],
    ) -> io::Result<()> {
        if entries.is_empty() {
            return println!(self.rt; "  no {name} tariff");
        }
        match start {
            Some(time) => println!(self.rt; "  {name} tariff from {time}, {control}:")?,
            None => println!(self.rt; "  {name} tariff, {control}:")?,
        }
        self.print_entries("    ", entries)?;
        let tariff = Tariff::of(control, entries);
        self.print_stretch(&tariff, "minute", 60)?;
        self.print_stretch(&tariff, "hour", 3600)
    }

    fn print_entries(&self, indent: &str, entries: &[Entry]) -> io::Result<()> {
        for Entry { charge, term } in entries {
            let price = self.amount(self.unit.price(*charge));
            println!(self.rt; "{indent}{term}: {charge}, price {price}")?;
        }
        Ok(())
    }

    // What the first seconds of a call under the tariff cost, apart from its set-up charge.
    fn print_stretch(&self, tariff: &Tariff, stretch: &str, seconds: u32) -> io::Result<()> {
        match tariff.price_of_stretch(&self.unit, 0, seconds) {
            Some(value) => {
                let amount = self.amount(value);
                println!(self.rt; "    the first {stretch}: {amount}")
            }
            None => println!(self.rt; "    the first {stretch}: more than 64 bits hold"),
        }
    }

    // What writing an indication again gives.
    fn print_rewritten(&self, indication: &Indication, bytes: &[u8]) -> io::Result<()> {
        // room that is lent to the writer
        let mut again = [0u8; MOST_BYTES];
        match writer::write(indication, &mut again) {
            Ok(count) if &again[0..count] == bytes => {
                println!(self.rt; "  written again: the same bytes")
            }
            Ok(_) => println!(self.rt; "  written again: OTHER BYTES"),
            Err(fault) => println!(self.rt; "  written again: {fault}"),
        }
    }

    fn amount(&self, value: u64) -> Amount {
        Amount {
            value,
            unit: self.name,
        }
    }
}

// The kind that the bytes are taken as: what they claim to be, and a tariff where they claim neither.
fn taken_kind(bytes: &[u8]) -> Kind {
    bytes
        .get(2)
        .and_then(|code| Kind::try_from(*code).ok())
        .unwrap_or(Kind::Tariff)
}
