// What an engine keeps tidy, from its start on: the contracts of functions that do nothing.
ghost use Rattle.std.specs.Prelude.{ℕ};
ghost use Rattle.vl_model.specs.History.{History, no_history};
ghost use Rattle.vl_model.specs.Winners.{Logs};
ghost use Rattle.vl_engine_model.specs.Start.{IsWellRecovered, Recovered, fresh_layout, layout_at_start};
ghost use Rattle.vl_engine_model.specs.Stock.{IsWellStocked};
ghost use Rattle.vl_engine_model.specs.Tidy.{IsRuledTidy, IsTidy};
ghost use Rattle.vl_engine_model.specs.declared.layout.Layout.{Layout};
ghost use Rattle.vl_engine_model_laws.specs.Asks.{AsksTidy};
ghost use Rattle.vl_engine_model_laws.specs.Calls.{Call, ruling_on};

/// Whatever a call answers, what an engine keeps tidy is so of the layout and the history that it
/// leaves. A flush asks that the values that it places far are found in the logs, a relocation that the
/// batch's records are; an install or an end of a job hands in what was made of its own files.
pub fn an_engine_stays_tidy()
    ensures { (logs : Logs) (call : Call) (l : Layout) (h : History) → AsksTidy logs call l → IsTidy logs l h
        → IsRuledTidy logs (ruling_on call l h) }
{}

/// A new store is tidy; and the files that an opening leaves are, where what it found is in order.
pub fn a_start_is_tidy()
    ensures new { (logs : Logs) (room : ℕ) → IsTidy logs (fresh_layout room) no_history }
    ensures opened { (room : ℕ) (found : Recovered) → IsWellRecovered found
        → IsWellStocked (layout_at_start room found) }
{}
