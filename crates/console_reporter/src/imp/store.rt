//! A store: the second writer of a reporter, which takes a record of each finished test.

ghost use Rattle.std.specs.Prelude.{◌≡◌, OnOk, Some};
ghost use Rattle.{writers.specs.Writer.Puts, console_reporter.specs.Stored.record_of};

use run_model::event::{TestEvent, TestEventKind};
use store_text::config::StoreConfig;
use store_text::record::write_record;
use writers::write_str::{WriteFault, WriteStr};

/// The second writer of a reporter, and which outputs it keeps.
#[derive(Drop)]
pub struct Store<'a, S> {
    /// Where the records go.
    pub writer: &'a mut S,
    /// Which outputs the records hold.
    pub config: StoreConfig,
}

impl<'a, S: WriteStr> Store<'a, S> {
    /// A store with this writer.
    pub fn new(writer: &'a mut S, config: StoreConfig) -> Store<'a, S>
        ensures { result ≡ record { writer = writer.entry; config = config } }
    {
        Store { writer, config }
    }

    /// Writes the record of an event, if it has one, and delivers it.
    ///
    /// ```
    /// use console_reporter::imp::Store;
    /// let mut records = String::new(alloc);
    /// let mut store = Store::new(&mut records, store);
    /// store.deliver_record(&event)?;
    /// drop(store);
    /// assert_eq!(records.as_str(), "5:alpha,2:t1,4:PASS,0:,\n");
    /// ```
    ///
    /// # Errors
    ///
    /// The writer's fault. It has accepted a prefix of the record.
    pub fn deliver_record(&mut self, event: &TestEvent<'_>) -> Result<(), WriteFault>
        ensures same { self.new.writer.ghost_name ≡ self.old.writer.ghost_name }
        ensures config { self.new.config ≡ self.old.config }
        ensures text { Puts S.meaning self.old.writer.now (record_of (Some self.old.config) event.now.kind) result
            self.new.writer.now }
        ensures delivered { OnOk result (S.meaning.is_delivered self.new.writer.now) }
    {
        write_record_of(self.writer, self.config, event)?;
        self.writer.write_str_flush()
    }
}

fn write_record_of<S: WriteStr>(
    w: &mut S,
    config: StoreConfig,
    event: &TestEvent<'_>,
) -> Result<(), WriteFault>
    ensures { Puts S.meaning w.old (record_of (Some config) event.now.kind) result w.new }
{
    match &event.kind {
        TestEventKind::TestFinished {
            test_instance,
            run_statuses,
            ..
        } => write_record(w, config, *test_instance, run_statuses),
        _ => Ok(()),
    }
}
