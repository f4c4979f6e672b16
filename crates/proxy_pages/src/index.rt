//! The page for people.

/// The page: its script reads `/metrics` again and again, and asks nobody else.
pub(crate) const INDEX: &str = r##"<!DOCTYPE html>
<html lang='en'>
<head>
<meta charset='utf-8'>
<meta name='viewport' content='width=device-width'>
<meta http-equiv="Content-Security-Policy"
  content="default-src 'none'; style-src 'unsafe-inline'; script-src 'unsafe-inline'; connect-src 'self'">
<title>redproxy</title>
<style>
:root { color-scheme: light dark; }
body { font: 15px/1.5 system-ui, sans-serif; max-width: 62em; margin: 2em auto; padding: 0 1em; }
h1 { font-size: 1.4em; margin: 0; }
nav { margin: .3em 0 1.2em; }
nav a { margin-right: 1em; }
dl { display: flex; flex-wrap: wrap; gap: .6em 2.2em; margin: 0; }
dt { opacity: .7; font-size: .85em; }
dd { margin: 0; font-size: 1.4em; }
svg { width: 100%; height: 7em; margin: 1.2em 0 0; }
polyline { fill: none; stroke: #c33; stroke-width: 1.5; vector-effect: non-scaling-stroke; }
figure { margin: 0 0 1.2em; }
figcaption { opacity: .7; font-size: .85em; }
table { border-collapse: collapse; width: 100%; }
th, td { text-align: right; padding: .25em .6em; border-bottom: 1px solid #8886; }
th:first-child, td:first-child, td:last-child, th:last-child { text-align: left; }
.out { color: #c33; font-weight: bold; }
</style>
</head>
<body>
<h1>redproxy <small id='version'></small></h1>
<p id='state'>This page needs JavaScript. The pages below have its numbers as text.</p>
<nav>
<a href='/metrics'>/metrics</a> <a href='/hosts'>/hosts</a> <a href='/ready'>/ready</a> <a href='/live'>/live</a>
</nav>
<dl id='numbers'></dl>
<figure>
<svg id='line' viewBox='0 0 300 100' preserveAspectRatio='none'></svg>
<figcaption id='caption'></figcaption>
</figure>
<table><thead id='head'></thead><tbody id='hosts'></tbody></table>
<p id='refused'></p>
<script>
'use strict';
const LOOK_MS = 2000, SHORT_MS = 10000, MINUTE_MS = 60000, LINE_MS = 300000;
const looks = [];
const by = id => document.getElementById(id);
const last = () => looks[looks.length - 1];

// Each number of a page, by its name with labels.
function numbers(text) {
  const found = new Map();
  for (const line of text.split('\n')) {
    const end = line.lastIndexOf(' ');
    if (line && line[0] != '#') found.set(line.slice(0, end), Number(line.slice(end + 1)));
  }
  return found;
}

// The oldest look that is at most so old.
const since = ms => looks.find(look => look.at >= last().at - ms);
const label = (name, word) => (name.match(word + '="([^"]*)"') || ['', ''])[1];
const now = name => last().numbers.get(name) || 0;
const grown = (name, look) => now(name) - (look.numbers.get(name) || 0);
const names = start => [...last().numbers.keys()].filter(name => name.startsWith(start));
const sum = (start, value) => names(start).reduce((all, name) => all + value(name), 0);

function rate(start) {
  const look = since(SHORT_MS), ms = last().at - look.at;
  return ms ? sum(start, name => grown(name, look)) * 1000 / ms : NaN;
}

// A quantile of the last minute's durations, in seconds, as Prometheus reckons it.
function quantile(metric, labels, share) {
  const look = since(MINUTE_MS), start = metric + '_bucket{' + labels;
  const bound = name => Number(label(name, 'le').replace('+Inf', 'Infinity'));
  const bounds = names(start).map(name => [bound(name), grown(name, look)]).sort((one, other) => one[0] - other[0]);
  const all = bounds.length ? bounds[bounds.length - 1][1] : 0;
  let below = 0, counted = 0;
  for (const [bound, count] of bounds) {
    if (all && count >= share * all) {
      if (bound == Infinity) return below;
      return below + (bound - below) * (share * all - counted) / (count - counted || 1);
    }
    below = bound;
    counted = count;
  }
  return NaN;
}

const whole = value => isNaN(value) ? '-' : Math.round(value).toLocaleString('en');
function time(seconds) {
  if (isNaN(seconds)) return '-';
  if (seconds < 0.001) return (seconds * 1e6).toFixed(0) + ' us';
  return seconds < 1 ? (seconds * 1000).toPrecision(3) + ' ms' : seconds.toPrecision(3) + ' s';
}

function add(parent, kind, text, style) {
  const child = parent.appendChild(document.createElement(kind));
  child.textContent = text;
  if (style) child.className = style;
  return child;
}

function showNumbers() {
  const place = by('numbers');
  place.textContent = '';
  const durations = 'redproxy_command_duration_seconds';
  for (const [name, value] of [
    ['requests a second', whole(rate('redproxy_replies_handed_total'))],
    ['errors a second', whole(rate('redproxy_part_errors_total'))],
    ['p50, last minute', time(quantile(durations, '', 0.5))],
    ['p99, last minute', time(quantile(durations, '', 0.99))],
    ['KiB a second from clients', whole(rate('redproxy_read_bytes_total{peer="clients"') / 1024)],
    ['KiB a second to clients', whole(rate('redproxy_written_bytes_total{peer="clients"') / 1024)],
    ['client sockets', whole(now('redproxy_client_connections'))],
    ['generations opened', whole(now('redproxy_generations_total'))],
    ['of them draining', whole(now('redproxy_generations_draining'))],
    ['processors used', rate('process_cpu_seconds_total').toFixed(2)],
    ['memory, MiB', whole(now('process_resident_memory_bytes') / 1048576)],
  ]) {
    const pair = add(place, 'div', '');
    add(pair, 'dt', name);
    add(pair, 'dd', value);
  }
}

function showLine() {
  const points = [], handed = look => look.numbers.get('redproxy_replies_handed_total') || 0;
  for (let at = 1; at < looks.length; at++) {
    const one = looks[at - 1], other = looks[at];
    points.push([other.at, (handed(other) - handed(one)) * 1000 / (other.at - one.at)]);
  }
  const most = Math.max(1, ...points.map(point => point[1]));
  const drawn = ([at, value]) => [300 - (last().at - at) * 300 / LINE_MS, 99 - 98 * value / most].join(',');
  by('line').innerHTML = '<polyline points="' + points.map(drawn).join(' ') + '"/>';
  by('caption').textContent = 'requests a second, the last five minutes since this page was opened; at most ' + whole(most);
}

// Why a host is out, and when it may return.
function back(of) {
  const [name] = names('redproxy_host_return_seconds{' + of);
  return name ? ' for ' + label(name, 'cause').replaceAll('_', ' ') + ', may return in ' + whole(now(name)) + ' s' : '';
}

function showHosts() {
  by('head').textContent = by('hosts').textContent = '';
  const titles = add(by('head'), 'tr', '');
  ['host', 'state', 'parts a second', 'lost a second', 'p50', 'p99', 'to be sent', 'sent', 'faults so far']
    .forEach(title => add(titles, 'th', title));
  for (const name of names('redproxy_host_out{').filter(name => !name.includes('line="'))) {
    const of = 'host="' + label(name, 'host') + '"', row = add(by('hosts'), 'tr', '');
    const lines = names('redproxy_host_out{' + of + ',').filter(now).map(line => label(line, 'line'));
    const state = now(name) ? 'out' + (lines.length ? ' in line ' + lines.join(', ') : '') + back(of) : 'in';
    const faults = names('redproxy_host_faults_total{' + of).filter(now)
      .map(fault => now(fault) + ' ' + label(fault, 'cause'));
    add(row, 'td', label(name, 'host'));
    add(row, 'td', state, now(name) ? 'out' : '');
    for (const value of [
      whole(rate('redproxy_host_replies_total{' + of)),
      whole(rate('redproxy_host_parts_lost_total{' + of)),
      time(quantile('redproxy_host_duration_seconds', of, 0.5)),
      time(quantile('redproxy_host_duration_seconds', of, 0.99)),
      whole(now('redproxy_host_parts_waiting{' + of + '}')),
      whole(now('redproxy_host_parts_flying{' + of + '}')),
      faults.join(', ') || 'none',
    ]) add(row, 'td', value);
  }
}

function showRefused() {
  const found = names('redproxy_refused_commands_total{').filter(now).sort((one, other) => now(other) - now(one));
  const told = found.map(name => label(name, 'command') + ' ' + whole(now(name)));
  by('refused').textContent = told.length ? 'refused commands so far: ' + told.join(', ') : '';
}

function show() {
  const build = names('redproxy_build_info')[0] || '', clock = new Date().toLocaleTimeString();
  by('version').textContent = label(build, 'version');
  const other = now('redproxy_ending') ? 'It drains.' : 'It begins.';
  const ready = now('redproxy_ready') ? 'It takes new clients.' : other;
  const panic = now('redproxy_panic') ? ' So few hosts are in that all are used.' : '';
  by('state').textContent = ready + panic + ' Looked at ' + clock + '.';
  showNumbers();
  showLine();
  showHosts();
  showRefused();
}

async function look() {
  try {
    const reply = await fetch('/metrics');
    const found = numbers(await reply.text()), opened = 'redproxy_generations_total';
    // (another process answers: its counts begin anew)
    if (looks.length && found.get(opened) < now(opened)) looks.length = 0;
    looks.push({ at: performance.now(), numbers: found });
    while (last().at - looks[0].at > LINE_MS) looks.shift();
    show();
  } catch (error) {
    by('state').textContent = 'No answer at ' + new Date().toLocaleTimeString() + '. The numbers below are older.';
  }
  setTimeout(look, LOOK_MS);
}
look();
</script>
</body>
</html>
"##;
