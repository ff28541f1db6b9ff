//! A page in Prometheus' text format: families of samples, each with its help and its type.
//!
//! A name, a help text and a label's value have no backslash, quote or LF here: so none of them is escaped.
ghost use Rattle.std.specs.Prelude.{◌≡◌, ◌++◌, [], decimal, codes, OnOk};
ghost use Rattle.proxy_log.specs.Seconds.{seconds_text};
ghost use Rattle.proxy_figures.specs.Page.{metric_kind_text, metric_family_header_text, metric_label_text};
ghost use Rattle.proxy_figures.specs.Page.{metric_sample_start_text, further_label_text};
ghost use Rattle.proxy_figures.specs.Page.{metric_sample_end_text};
ghost use Rattle.proxy_figures.specs.Page.{metric_sample_text, sample_with_label_text, sample_with_two_labels_text};

use itoa::Buffer;
use proxy_log::push_seconds;
use std::alloc::{AllocError, Global};

/// What the samples of a family are.
#[derive(Clone, Copy, PartialEq, Eq)]
pub(crate) enum Kind {
    Counter,
    Gauge,
    Histogram,
}

/// A family of one sample.
#[derive(Clone, Copy)]
pub(crate) struct SingleSample<'a> {
    pub(crate) name: &'a str,
    pub(crate) kind: Kind,
    pub(crate) help: &'a str,
    pub(crate) n: u64,
}

/// The text of a page. Each sample has the label of its program in front: the files of several are read together.
#[derive(Drop)]
pub(crate) struct Page<'a> {
    text: Vec<u8>,
    /// The address that the program listens on.
    listen: &'a str,
}

fn metric_kind_text(kind: Kind) -> &'static str
    ensures { result.now ≡ metric_kind_text kind }
{
    match kind {
        Kind::Counter => "counter",
        Kind::Gauge => "gauge",
        Kind::Histogram => "histogram",
    }
}

impl<'a> Page<'a> {
    pub(crate) fn new(alloc: Global, listen: &'a str) -> Page<'a>
        ensures text { result.text.items ≡ [] }
        ensures listen { result.listen.now ≡ listen.entry.now }
    {
        Page {
            text: Vec::new(alloc),
            listen,
        }
    }

    pub(crate) fn into_text(self) -> Vec<u8>
        ensures { result ≡ self.entry.text }
    {
        self.text
    }

    fn push(&mut self, text: &str) -> Result<(), AllocError>
        ensures listen { self.new.listen ≡ self.old.listen }
        ensures text { OnOk result (self.new.text.items ≡ self.old.text.items ++ text.now) }
    {
        self.text.extend_from_slice(text.as_bytes())
    }

    /// Begins a family: its samples follow.
    pub(crate) fn family(&mut self, name: &str, kind: Kind, help: &str) -> Result<(), AllocError>
        ensures listen { self.new.listen ≡ self.old.listen }
        ensures text { OnOk result (self.new.text.items ≡ self.old.text.items
            ++ metric_family_header_text name.now kind help.now) }
    {
        self.push("# HELP ")?;
        self.push(name)?;
        self.push(" ")?;
        self.push(help)?;
        self.push("\n# TYPE ")?;
        self.push(name)?;
        self.push(" ")?;
        self.push(metric_kind_text(kind))?;
        self.push("\n")
    }

    fn label(&mut self, key: &str, label: &str) -> Result<(), AllocError>
        ensures listen { self.new.listen ≡ self.old.listen }
        ensures text { OnOk result (self.new.text.items ≡ self.old.text.items ++ metric_label_text key.now label.now) }
    {
        self.push(key)?;
        self.push("=\"")?;
        self.push(label)?;
        self.push("\"")
    }

    /// The name of a sample, and the label of its program.
    fn push_sample_name(&mut self, name: &str) -> Result<(), AllocError>
        ensures listen { self.new.listen ≡ self.old.listen }
        ensures text { OnOk result (self.new.text.items ≡ self.old.text.items
            ++ metric_sample_start_text self.old.listen.now name.now) }
    {
        let listen = self.listen;
        self.push(name)?;
        self.push("{")?;
        self.label("listen", listen)
    }

    /// A further label.
    fn push_further_label(&mut self, key: &str, label: &str) -> Result<(), AllocError>
        ensures listen { self.new.listen ≡ self.old.listen }
        ensures text { OnOk result (self.new.text.items ≡ self.old.text.items ++ further_label_text key.now label.now) }
    {
        self.push(",")?;
        self.label(key, label)
    }

    /// The value of a sample, and its end.
    fn value(&mut self, n: u64) -> Result<(), AllocError>
        ensures listen { self.new.listen ≡ self.old.listen }
        ensures text { OnOk result (self.new.text.items ≡ self.old.text.items ++ metric_sample_end_text (decimal n)) }
    {
        let mut digits = Buffer::new();
        self.push("} ")?;
        self.push(digits.format(n))?;
        self.push("\n")
    }

    /// The same of milliseconds, as seconds.
    fn time_value(&mut self, milliseconds: u64) -> Result<(), AllocError>
        ensures listen { self.new.listen ≡ self.old.listen }
        ensures text { OnOk result (self.new.text.items ≡ self.old.text.items
            ++ metric_sample_end_text (seconds_text milliseconds)) }
    {
        self.push("} ")?;
        push_seconds(&mut self.text, milliseconds)?;
        self.push("\n")
    }

    /// A sample.
    pub(crate) fn sample(&mut self, name: &str, n: u64) -> Result<(), AllocError>
        ensures listen { self.new.listen ≡ self.old.listen }
        ensures text { OnOk result (self.new.text.items ≡ self.old.text.items
            ++ metric_sample_text self.old.listen.now name.now (decimal n)) }
    {
        self.push_sample_name(name)?;
        self.value(n)
    }

    /// A sample of milliseconds, as seconds.
    pub(crate) fn time(&mut self, name: &str, milliseconds: u64) -> Result<(), AllocError>
        ensures listen { self.new.listen ≡ self.old.listen }
        ensures text { OnOk result (self.new.text.items ≡ self.old.text.items
            ++ metric_sample_text self.old.listen.now name.now (seconds_text milliseconds)) }
    {
        self.push_sample_name(name)?;
        self.time_value(milliseconds)
    }

    /// A sample with a label.
    pub(crate) fn sample_with_label(
        &mut self,
        name: &str,
        key: &str,
        label: &str,
        n: u64,
    ) -> Result<(), AllocError>
        ensures listen { self.new.listen ≡ self.old.listen }
        ensures text { OnOk result (self.new.text.items ≡ self.old.text.items
            ++ sample_with_label_text self.old.listen.now name.now key.now label.now (decimal n)) }
    {
        self.push_sample_name(name)?;
        self.push_further_label(key, label)?;
        self.value(n)
    }

    /// A sample of milliseconds with a label.
    pub(crate) fn time_with_label(
        &mut self,
        name: &str,
        key: &str,
        label: &str,
        milliseconds: u64,
    ) -> Result<(), AllocError>
        ensures listen { self.new.listen ≡ self.old.listen }
        ensures text { OnOk result (self.new.text.items ≡ self.old.text.items
            ++ sample_with_label_text self.old.listen.now name.now key.now label.now (seconds_text milliseconds)) }
    {
        self.push_sample_name(name)?;
        self.push_further_label(key, label)?;
        self.time_value(milliseconds)
    }

    /// A sample with two labels.
    pub(crate) fn sample_with_two_labels(
        &mut self,
        name: &str,
        first: (&str, &str),
        second: (&str, &str),
        n: u64,
    ) -> Result<(), AllocError>
        ensures listen { self.new.listen ≡ self.old.listen }
        ensures text { OnOk result (self.new.text.items ≡ self.old.text.items
            ++ sample_with_two_labels_text self.old.listen.now name.now first.entry.0.now first.entry.1.now
            second.entry.0.now second.entry.1.now (decimal n)) }
    {
        self.push_sample_name(name)?;
        self.push_further_label(first.0, first.1)?;
        self.push_further_label(second.0, second.1)?;
        self.value(n)
    }

    /// A family of one sample.
    pub(crate) fn single_sample_family(
        &mut self,
        name: &str,
        kind: Kind,
        help: &str,
        n: u64,
    ) -> Result<(), AllocError>
        ensures listen { self.new.listen ≡ self.old.listen }
        ensures text { OnOk result (self.new.text.items ≡ self.old.text.items
            ++ (metric_family_header_text name.now kind help.now
            ++ metric_sample_text self.old.listen.now name.now (decimal n))) }
    {
        self.family(name, kind, help)?;
        self.sample(name, n)
    }

    /// A family of one sample of milliseconds, as seconds.
    pub(crate) fn single_time_family(
        &mut self,
        name: &str,
        kind: Kind,
        help: &str,
        milliseconds: u64,
    ) -> Result<(), AllocError>
        ensures listen { self.new.listen ≡ self.old.listen }
        ensures text { OnOk result (self.new.text.items ≡ self.old.text.items
            ++ (metric_family_header_text name.now kind help.now
            ++ metric_sample_text self.old.listen.now name.now (seconds_text milliseconds))) }
    {
        self.family(name, kind, help)?;
        self.time(name, milliseconds)
    }

    /// Families of one sample each.
    pub(crate) fn single_sample_families(
        &mut self,
        families: &[SingleSample<'_>],
    ) -> Result<(), AllocError> {
        for it in families {
            self.single_sample_family(it.name, it.kind, it.help, it.n)?;
        }
        Ok(())
    }

    /// A family whose samples have one label more.
    pub(crate) fn labelled_family(
        &mut self,
        name: &str,
        kind: Kind,
        help: &str,
        key: &str,
        samples: &[(&str, u64)],
    ) -> Result<(), AllocError> {
        self.family(name, kind, help)?;
        for (label, n) in samples {
            self.sample_with_label(name, key, label, *n)?;
        }
        Ok(())
    }
}
