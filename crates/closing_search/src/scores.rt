//! What splits of units gained so far: at those of great gains it is looked first.

use slot_text::Memory;
use std::alloc::Global;
use std::num::{nearest_i64_to_f64, saturating_f64_to_i64};

/// For each unit a mean of the scores of its splits, of which later ones count more; less than 0
/// where none was looked at.
#[derive(Drop)]
pub(crate) struct Scores {
    means: Vec<f64>,
}

impl Scores {
    // No split of so many units was looked at.
    pub(crate) fn none(alloc: Global, units: u32) -> Result<Scores, Memory> {
        Ok(Scores {
            means: vec![in alloc; -1.0; units as usize]?,
        })
    }

    // Notes what a split of a unit gained in its two parts.
    pub(crate) fn note(&mut self, unit: u32, low: f64, high: f64) {
        let score = score_of(low, high);
        if let Some(mean) = self.means.get_mut(unit as usize) {
            *mean = if *mean < 0.0 {
                score
            } else {
                (*mean + score) / 2.0
            };
        }
    }

    // The mean over the units that have a score.
    pub(crate) fn mean(&self) -> f64 {
        let mut sum = 0.0;
        let mut count: i64 = 0;
        for mean in &self.means {
            if *mean >= 0.0 {
                sum += *mean;
                count = count.saturating_add(1);
            }
        }
        if count > 0 {
            sum / nearest_i64_to_f64(count)
        } else {
            0.0
        }
    }

    // The order of a unit, the less the greater its score; a unit without one has this.
    pub(crate) fn order(&self, unit: u32, other: f64) -> u64 {
        let score = match self.means.get(unit as usize) {
            Some(mean) if *mean >= 0.0 => *mean,
            _ => other,
        };
        let rank = u64::try_from(saturating_f64_to_i64(score * 1000.0)).unwrap_or(0);
        u64::MAX - rank
    }
}

// A score of two gains, in which the less one counts most.
fn score_of(low: f64, high: f64) -> f64 {
    low * high / (low + high)
}
